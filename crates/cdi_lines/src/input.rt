//! A reader of the standard library as a source.
ghost use Rattle.std.specs.Prelude.{◌≡◌, false};
ghost use Rattle.std.specs.Io.{ReadsAtMost};
ghost use Rattle.std.specs.Io.KnownBytes.{ReadConsumes};
ghost use Rattle.cdi_lines.specs.Calls.{ReadsOnce};
ghost use Rattle.cdi_lines.specs.Ends.{Tells};
ghost use Rattle.cdi_lines.specs.Streams.{reader_of, has_read_failed};

use crate::reader::Reader;
use crate::sink::Sink;
use crate::source::{ReadFailed, Source};

/// A reader as a source. After its first failure the reader isn't asked again.
#[derive(Drop)]
pub struct Input<R> {
    reader: R,
    has_failed: bool,
}

impl<R> Input<R> {
    /// An input over a reader, of which no read has failed yet.
    pub fn new(reader: R) -> Input<R>
        ensures reader { reader_of result ≡ reader }
        ensures failed { has_read_failed result ≡ false }
    {
        Input {
            reader,
            has_failed: false,
        }
    }

    /// Whether a read of it failed.
    pub fn has_failed(&self) -> bool
        ensures { result ≡ has_read_failed self.now }
    {
        self.has_failed
    }

    /// The reader, as the reads left it.
    pub fn into_inner(self) -> R
        ensures { result ≡ reader_of self }
    {
        self.reader
    }
}

impl<R: Reader> Source for Input<R> {
    ghost unread = { λ input. R.remaining (reader_of input) };

    ghost has_failed = { λ input. has_read_failed input };

    fn read<W: Sink>(&mut self, buf: &mut [u8], _output: &W) -> Result<usize, ReadFailed>
        ensures bound { ReadsAtMost result buf.new }
        ensures bytes { ReadConsumes (R.remaining (reader_of self.old))
            (R.remaining (reader_of self.new)) result buf.new }
        ensures failed { Tells result (has_read_failed self.old) (has_read_failed self.new) }
        ensures asked { ReadsOnce R.reads self.old buf.old result self.new buf.new }
    {
        if self.has_failed {
            return Err(ReadFailed);
        }
        match self.reader.read_once(buf) {
            Ok(count) => Ok(count),
            Err(_error) => {
                self.has_failed = true;
                Err(ReadFailed)
            }
        }
    }
}
