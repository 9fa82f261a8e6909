//! A writer behind a buffer.
ghost use Rattle.std.specs.Prelude.{◌≡◌, ◌≤◌, length, IfErr, IfOk, IfSome, IsTrue};
ghost use Rattle.std.specs.IoError.{error_kind};
ghost use Rattle.cdi_lines.specs.Streams.{buffered_contents, buffered_inner, is_buffer_empty};

use crate::writer::Writer;
use std::alloc::Global;
use std::io;
use std::io::{BufWriter, ErrorKind, Write};

/// A writer behind a buffer, which is empty after a flush that succeeded.
#[derive(Drop)]
pub struct Buffered<W: Write + Drop> {
    writer: BufWriter<W>,
}

impl<W: Write + Drop> Buffered<W> {
    /// A writer behind an empty buffer. An error where its memory was refused.
    pub fn new(alloc: Global, writer: W) -> io::Result<Buffered<W>>
        ensures empty { IfOk result (λ buffered. IsTrue (is_buffer_empty buffered)) }
        ensures writer { IfOk result (λ buffered. buffered_inner buffered ≡ writer) }
        ensures err { IfErr result (λ error. error_kind error ≡ ErrorKind.OutOfMemory) }
    {
        let writer = BufWriter::new(alloc, writer)?;
        Ok(Buffered { writer })
    }
}

impl<W: Write + Drop> Writer for Buffered<W> {
    ghost contents = { buffered_contents W.contents };

    ghost holds_nothing = { λ buffered. is_buffer_empty buffered };

    ghost writes = { λ _ bytes count _. IfSome count (λ n. n ≤ length bytes) };

    ghost flushes = { λ _ _ _. Unit {0} };

    fn write_once(&mut self, bytes: &[u8]) -> io::Result<usize> {
        self.writer.write(bytes)
    }

    fn flush_once(&mut self) -> io::Result<()> {
        self.writer.flush()
    }
}
