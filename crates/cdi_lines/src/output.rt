//! A writer as a sink.
ghost use Rattle.std.specs.Prelude.{◌≡◌, false, OnOk, IsTrue};
ghost use Rattle.std.specs.Io.KnownBytes.{Keeps};
ghost use Rattle.cdi_lines.specs.Calls.{FlushesOnce, WritesOnce, WritesOut};
ghost use Rattle.cdi_lines.specs.Ends.{Tells, WritesAll};
ghost use Rattle.cdi_lines.specs.Streams.{writer_of, has_write_failed, is_all_passed_on, is_flushed};

use crate::sink::{Sink, WriteFailed};
use crate::writer::Writer;

/// A writer as a sink. After its first failure the writer isn't asked again. It has passed all on once the writer has
/// flushed after the last write, and holds nothing back as far as that is known.
#[derive(Drop)]
pub struct Output<W> {
    writer: W,
    has_failed: bool,
    is_flushed: bool,
}

impl<W> Output<W> {
    /// An output over a writer, of which no write has failed yet.
    pub fn new(writer: W) -> Output<W>
        ensures writer { writer_of result ≡ writer }
        ensures failed { has_write_failed result ≡ false }
        ensures flushed { is_flushed result ≡ false }
    {
        Output {
            writer,
            has_failed: false,
            is_flushed: false,
        }
    }

    /// Whether a write or a flush of it failed.
    pub fn has_failed(&self) -> bool
        ensures { result ≡ has_write_failed self.now }
    {
        self.has_failed
    }

    /// The writer, as the writes left it.
    pub fn into_inner(self) -> W
        ensures { result ≡ writer_of self }
    {
        self.writer
    }
}

/// Writes bytes whole, in as many writes as the writer needs. Where a write fails, or takes nothing while bytes are left,
/// a front part of them stands in the writer.
fn write_whole<W: Writer>(writer: &mut W, bytes: &[u8]) -> Result<(), WriteFailed>
    ensures bytes { WritesAll (W.contents writer.old) (W.contents writer.new) result bytes.now }
    ensures asked { WritesOut W.writes writer.old bytes.now result writer.new }
{
    let mut rest = bytes;
    while !rest.is_empty() {
        match writer.write_once(rest) {
            Ok(0) | Err(_) => return Err(WriteFailed),
            Ok(count) => rest = &rest[count..],
        }
    }
    Ok(())
}

impl<W: Writer> Sink for Output<W> {
    ghost written = { λ output. W.contents (writer_of output) };

    ghost has_failed = { λ output. has_write_failed output };

    ghost is_passed_on = { is_all_passed_on W.holds_nothing };

    fn write(&mut self, bytes: &[u8]) -> Result<(), WriteFailed>
        ensures bytes { WritesAll (W.contents (writer_of self.old))
            (W.contents (writer_of self.new)) result bytes.now }
        ensures failed { Tells result (has_write_failed self.old) (has_write_failed self.new) }
        ensures asked { WritesOnce W.writes self.old bytes.now result self.new }
    {
        if self.has_failed {
            return Err(WriteFailed);
        }
        self.is_flushed = false;
        let result = write_whole(&mut self.writer, bytes);
        self.has_failed = result.is_err();
        result
    }

    fn flush(&mut self) -> Result<(), WriteFailed>
        ensures bytes { Keeps (W.contents (writer_of self.old)) (W.contents (writer_of self.new)) }
        ensures failed { Tells result (has_write_failed self.old) (has_write_failed self.new) }
        ensures passed_on { OnOk result (IsTrue (is_all_passed_on W.holds_nothing self.new)) }
        ensures asked { FlushesOnce W.flushes self.old result self.new }
    {
        if self.has_failed {
            return Err(WriteFailed);
        }
        match self.writer.flush_once() {
            Ok(()) => {
                self.is_flushed = true;
                Ok(())
            }
            Err(_error) => {
                self.is_flushed = false;
                self.has_failed = true;
                Err(WriteFailed)
            }
        }
    }
}
