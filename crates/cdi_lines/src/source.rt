//! What lines are read from.
ghost use Rattle.std.specs.Prelude.{ℕ, Bool, List, Option, IsTrue};
ghost use Rattle.std.specs.Io.{ReadsAtMost};
ghost use Rattle.std.specs.Io.KnownBytes.{ReadConsumes};
ghost use Rattle.cdi_lines.specs.Ends.{Tells};

use crate::sink::Sink;
use thiserror::Error;

/// A read failed. What was read before is consumed, and nothing more.
#[derive(Clone, Copy, Debug, PartialEq, Eq, Error)]
#[error("a read failed")]
pub struct ReadFailed;

/// What lines are read from. It fails for good: once a read has failed, each later one fails too.
pub trait Source {
    // The bytes that are still to come, where that is known.
    ghost unread: { Self → Option (List ℕ) };

    // Whether it has failed.
    ghost has_failed: { Self → Bool };

    /// Reads once, into the front of a buffer, and gives how many bytes came. None in a buffer with room is the end.
    /// Where it fails, nothing is consumed.
    ///
    /// A read may wait for the other side, which may wait for what was written. So the output is shown, and has to have
    /// passed all on.
    fn read<W: Sink>(&mut self, buf: &mut [u8], output: &W) -> Result<usize, ReadFailed>
        requires { IsTrue (W.is_passed_on output.now) }
        ensures bound { ReadsAtMost result buf.new }
        ensures bytes { ReadConsumes (unread self.old) (unread self.new) result buf.new }
        ensures failed { Tells result (has_failed self.old) (has_failed self.new) };
}
