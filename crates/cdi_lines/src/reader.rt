//! What an input reads from.
ghost use Rattle.std.specs.Prelude.{◌≡◌, ℕ, ◌≤◌, List, Option, length, IfSome};
ghost use Rattle.std.specs.Io.{ReadsAtMost};
ghost use Rattle.std.specs.Io.KnownBytes.{ReadConsumes};
ghost use Rattle.cdi_lines.specs.Calls.{given};

use std::io;
use std::io::Read;

/// What an input reads from: any reader of the standard library. Here a clause can name a call of it, which it can't of
/// [`Read`], and say that it is asked once.
pub trait Reader {
    // The bytes that are still to come, where that is known.
    ghost remaining: { Self → Option (List ℕ) };

    // A read into this buffer may give so many bytes, or fail, and leave the reader and the buffer so.
    ghost reads: { Self → List ℕ → Option ℕ → Self → List ℕ → Type 0 };

    /// Reads once, into the front of a buffer, and gives how many bytes came.
    fn read_once(&mut self, buf: &mut [u8]) -> io::Result<usize>
        ensures bound { ReadsAtMost result buf.new }
        ensures bytes { ReadConsumes (remaining self.old) (remaining self.new) result buf.new }
        ensures reads { reads self.old buf.old (given result) self.new buf.new };
}

impl<R: Read> Reader for R {
    ghost remaining = { R.remaining };

    ghost reads = { λ _ _ count _ buf. IfSome count (λ n. n ≤ length buf) };

    fn read_once(&mut self, buf: &mut [u8]) -> io::Result<usize> {
        self.read(buf)
    }
}
