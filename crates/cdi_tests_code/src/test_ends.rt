//! Readers, writers and responders for the tests.
use cdi_lines::{Responder, Sink, WriteFailed};
use std::alloc::{AllocError, Global};
use std::io;
use std::io::{BufWriter, ErrorKind, Read, Write};
use std::process::Abort;

/// Gives its bytes in steps, and then its end or a failure.
#[derive(Drop)]
pub(crate) struct Steps<'a> {
    pub(crate) bytes: &'a [u8],
    pub(crate) step: usize,
    pub(crate) fails: bool,
}

impl Read for Steps<'_> {
    fn read(&mut self, buf: &mut [u8]) -> io::Result<usize> {
        let all: &[u8] = self.bytes;
        if all.is_empty() && self.fails {
            return Err(io::Error::from(ErrorKind::ConnectionReset));
        }
        let count = buf.len().min(all.len()).min(self.step);
        buf[..count].copy_from_slice(&all[..count]);
        self.bytes = &all[count..];
        Ok(count)
    }
}

/// Takes bytes in steps while there is room, and then fails or takes nothing.
#[derive(Drop)]
pub(crate) struct Room {
    pub(crate) taken: Vec<u8>,
    pub(crate) step: usize,
    pub(crate) left: usize,
    pub(crate) fails: bool,
}

impl Room {
    pub(crate) fn new(alloc: Global, step: usize, left: usize, fails: bool) -> Room {
        Room {
            taken: Vec::new(alloc),
            step,
            left,
            fails,
        }
    }
}

impl Write for Room {
    fn write(&mut self, buf: &[u8]) -> io::Result<usize> {
        if self.left == 0 && self.fails {
            return Err(io::Error::from(ErrorKind::BrokenPipe));
        }
        let count = buf.len().min(self.left).min(self.step);
        self.taken.extend_from_slice(&buf[..count])?;
        self.left -= count;
        Ok(count)
    }

    fn flush(&mut self) -> io::Result<()> {
        Ok(())
    }
}

/// A writer that holds bytes back until it is flushed.
pub(crate) fn buffered(rt: &impl Abort, alloc: Global) -> BufWriter<Vec<u8>> {
    BufWriter::new(alloc, Vec::new(alloc)).expect(rt, "memory")
}

/// Takes all, and can't pass it on.
#[derive(Drop)]
pub(crate) struct Stuck {
    pub(crate) taken: Vec<u8>,
}

impl Stuck {
    pub(crate) fn new(alloc: Global) -> Stuck {
        let taken = Vec::new(alloc);
        Stuck { taken }
    }
}

impl Write for Stuck {
    fn write(&mut self, buf: &[u8]) -> io::Result<usize> {
        self.taken.extend_from_slice(buf)?;
        Ok(buf.len())
    }

    fn flush(&mut self) -> io::Result<()> {
        Err(io::Error::from(ErrorKind::BrokenPipe))
    }
}

/// Takes all, and holds nothing back.
pub(crate) struct Sunk;

impl Sink for Sunk {
    ghost use Rattle.std.specs.Prelude.{None, false, true};

    ghost written = { λ _. None };

    ghost has_failed = { λ _. false };

    ghost is_passed_on = { λ _. true };

    fn write(&mut self, _bytes: &[u8]) -> Result<(), WriteFailed> {
        Ok(())
    }

    fn flush(&mut self) -> Result<(), WriteFailed> {
        Ok(())
    }
}

/// Gives each line back reversed, with a line feed, until it has given so many.
#[derive(Drop)]
pub(crate) struct Mirror {
    pub(crate) left: u32,
}

impl Responder for Mirror {
    ghost use Rattle.std.specs.Prelude.{◌≡◌, ◌+◌, ◌∷◌, [], ◌++◌, reverse};

    ghost answers = { λ old line reply new. (reply ≡ reverse line ++ 10 ∷ []) × (new.left + 1 ≡ old.left) };

    fn answer(&mut self, alloc: Global, line: &[u8]) -> Result<Vec<u8>, AllocError> {
        if self.left == 0 {
            return Err(AllocError);
        }
        let mut reply = Vec::from_slice(alloc, line)?;
        reply.reverse();
        reply.push(b'\n')?;
        self.left -= 1;
        Ok(reply)
    }
}

/// Remembers how long the last line was, and replies nothing.
#[derive(Drop)]
pub(crate) struct Lengths {
    pub(crate) last: usize,
}

impl Responder for Lengths {
    ghost use Rattle.std.specs.Prelude.{◌≡◌, [], length};

    ghost answers = { λ _ line reply new. (reply ≡ []) × (new.last ≡ length line) };

    fn answer(&mut self, alloc: Global, line: &[u8]) -> Result<Vec<u8>, AllocError> {
        self.last = line.len();
        Ok(Vec::new(alloc))
    }
}
