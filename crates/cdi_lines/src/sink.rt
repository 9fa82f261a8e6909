//! What replies are written to.
ghost use Rattle.std.specs.Prelude.{◌≡◌, ℕ, Bool, List, Option, OnOk, IsTrue};
ghost use Rattle.std.specs.Io.KnownBytes.{Keeps};
ghost use Rattle.cdi_lines.specs.Ends.{Tells, WritesAll};

use thiserror::Error;

/// A write or a flush failed. Of what was to be written, a front part stands written.
#[derive(Clone, Copy, Debug, PartialEq, Eq, Error)]
#[error("a write failed")]
pub struct WriteFailed;

/// What replies are written to. It fails for good: once a write or a flush has failed, each later one fails too.
pub trait Sink {
    // The bytes that were written to it, where that is known.
    ghost written: { Self → Option (List ℕ) };

    // Whether it has failed.
    ghost has_failed: { Self → Bool };

    // Whether nothing that was written is held back.
    ghost is_passed_on: { Self → Bool };

    /// Writes bytes whole. Where it fails, a front part of them is written.
    fn write(&mut self, bytes: &[u8]) -> Result<(), WriteFailed>
        ensures bytes { WritesAll (written self.old) (written self.new) result bytes.now }
        ensures failed { Tells result (has_failed self.old) (has_failed self.new) };

    /// Passes on what is held back.
    fn flush(&mut self) -> Result<(), WriteFailed>
        ensures bytes { Keeps (written self.old) (written self.new) }
        ensures failed { Tells result (has_failed self.old) (has_failed self.new) }
        ensures passed_on { OnOk result (IsTrue (is_passed_on self.new)) };

    /// Writes bytes whole and passes them on. Where that fails, a front part of them is written, which may be all.
    final fn write_through(&mut self, bytes: &[u8]) -> Result<(), WriteFailed>
        ensures bytes { WritesAll (written self.old) (written self.new) result bytes.now }
        ensures failed { Tells result (has_failed self.old) (has_failed self.new) }
        ensures passed_on { OnOk result (IsTrue (is_passed_on self.new)) }
    {
        match self.write(bytes) {
            Ok(()) => self.flush(),
            Err(error) => Err(error),
        }
    }
}
