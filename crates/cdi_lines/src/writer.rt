//! What an output writes to.
ghost use Rattle.std.specs.Prelude.{ℕ, ◌≤◌, Bool, List, Option, length, IfSome, IsTrue, OnOk, is_ok, true};
ghost use Rattle.std.specs.Io.{WritesAtMost};
ghost use Rattle.std.specs.Io.KnownBytes.{Keeps, WriteAppends};
ghost use Rattle.cdi_lines.specs.Calls.{given};

use std::io;
use std::io::Write;

/// What an output writes to: any writer of the standard library. Here a clause can name a call of it, which it can't of
/// [`Write`].
pub trait Writer {
    // The bytes that it holds, where that is known.
    ghost contents: { Self → Option (List ℕ) };

    // Whether it holds nothing back, as far as that is known.
    ghost holds_nothing: { Self → Bool };

    // A write of these bytes may take so many of them, or fail, and leave the writer so.
    ghost writes: { Self → List ℕ → Option ℕ → Self → Type 0 };

    // A flush may succeed or fail, and leave the writer so.
    ghost flushes: { Self → Bool → Self → Type 0 };

    /// Writes once, from the front of bytes, and gives how many were taken.
    fn write_once(&mut self, bytes: &[u8]) -> io::Result<usize>
        ensures bound { WritesAtMost result bytes.now }
        ensures bytes { WriteAppends (contents self.old) (contents self.new) result bytes.now }
        ensures writes { writes self.old bytes.now (given result) self.new };

    /// Passes on what it holds back.
    fn flush_once(&mut self) -> io::Result<()>
        ensures bytes { Keeps (contents self.old) (contents self.new) }
        ensures flushes { flushes self.old (is_ok result) self.new }
        ensures nothing { OnOk result (IsTrue (holds_nothing self.new)) };
}

impl<W: Write> Writer for W {
    ghost contents = { W.contents };

    // A writer of which no more is known is taken at its word.
    ghost holds_nothing = { λ _. true };

    ghost writes = { λ _ bytes count _. IfSome count (λ n. n ≤ length bytes) };

    ghost flushes = { λ old _ new. Keeps (W.contents old) (W.contents new) };

    fn write_once(&mut self, bytes: &[u8]) -> io::Result<usize> {
        self.write(bytes)
    }

    fn flush_once(&mut self) -> io::Result<()> {
        self.flush()
    }
}
