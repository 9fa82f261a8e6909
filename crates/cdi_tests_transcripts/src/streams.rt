//! Runs of the program over readers and writers that go in steps, or fail. The words of a run stand behind these.
//!
//! | Words | What is otherwise |
//! |---|---|
//! | `over plain` | nothing |
//! | `over open` | the input has no line feed behind its last line |
//! | `over broken` | the same, and the read behind it fails |
//! | `over parts` | the input comes in two parts, in any way; a run that differs from the plain one takes its place |
//! | `over rooms` | the output has room for a front of what the plain run writes; unless each run fills it and ends in a fault, no output is told |
//! | `over held` | the output is what a buffered writer has passed on |
//! | `over stuck` | the output takes all and can't pass it on; it is not told |
//! | `blanks COUNT` | the input is so many blanks |
//! | `room COUNT` | the output has room for so many bytes; what is told on standard error is told in its place |
//! | `bytes over ..` | each `\xff` of the deployment and of the input is the byte of that number |
use crate::program::{Ran, run};
use cdi_tests_player::Played;
use std::alloc::{AllocError, Global};
use std::io;
use std::io::{BufWriter, ErrorKind, Read, Write};

/// Fails at each read.
#[derive(Drop)]
struct Broken;

impl Read for Broken {
    fn read(&mut self, _buf: &mut [u8]) -> io::Result<usize> {
        Err(io::Error::from(ErrorKind::ConnectionReset))
    }
}

/// Takes all, and can't pass it on.
#[derive(Drop)]
struct Stuck;

impl Write for Stuck {
    fn write(&mut self, buf: &[u8]) -> io::Result<usize> {
        Ok(buf.len())
    }

    fn flush(&mut self) -> io::Result<()> {
        Err(io::Error::from(ErrorKind::BrokenPipe))
    }
}

/// A run of the program as a transcript has it, whatever it reads from.
#[derive(Clone, Copy)]
pub(crate) struct Run<'a> {
    pub(crate) alloc: Global,
    pub(crate) words: &'a [&'a str],
    pub(crate) bytes: &'a [u8],
}

impl Run<'_> {
    /// The run over a reader.
    pub(crate) fn over<R: Read + Drop>(self, reader: R) -> Played {
        let Ran {
            status,
            writer,
            errors,
        } = run(
            self.alloc,
            self.words,
            self.bytes,
            reader,
            Vec::new(self.alloc),
        );
        Played {
            status,
            output: writer,
            errors,
        }
    }

    /// The run as it is, up to one by turns that differs.
    pub(crate) fn by_turns(self, input: &[u8]) -> Result<Played, AllocError> {
        let plain = self.over(input);
        for slice in SLICES {
            let Some(words) = with_slice(self.alloc, self.words, slice)? else {
                return Ok(plain);
            };
            let sliced = Run {
                words: words.as_slice(),
                ..self
            };
            let played = sliced.over(input);
            if played.status != plain.status || played.output != plain.output {
                return Ok(played);
            }
        }
        Ok(plain)
    }

    /// The run over an input that comes in two parts, up to one that differs.
    fn in_parts(self, input: &[u8]) -> Played {
        let plain = self.over(input);
        for at in 0..input.len() {
            let played = self.over(input[..at].chain(&input[at..]));
            if played.status != plain.status || played.output != plain.output {
                return played;
            }
        }
        plain
    }

    /// The run with room for so many bytes: its status, and what is told on standard error.
    pub(crate) fn with_room(self, input: &[u8], count: usize) -> Result<Played, AllocError> {
        let mut room = vec![in self.alloc; 0u8; count]?;
        let ran = run(
            self.alloc,
            self.words,
            self.bytes,
            input,
            room.as_mut_slice(),
        );
        Ok(Played {
            status: ran.status,
            output: ran.errors,
            errors: Vec::new(self.alloc),
        })
    }

    /// Whether the run fills the room that it has with a text, and ends in a fault.
    fn fills(self, input: &[u8], front: &[u8]) -> Result<bool, AllocError> {
        let mut room = vec![in self.alloc; 0u8; front.len()]?;
        let status = run(
            self.alloc,
            self.words,
            self.bytes,
            input,
            room.as_mut_slice(),
        )
        .status;
        Ok(status == 3 && room.as_slice() == front)
    }

    /// Whether it does so at each front of a text.
    fn fills_all(self, input: &[u8], text: &[u8]) -> Result<bool, AllocError> {
        for count in 0..text.len() {
            if !self.fills(input, &text[..count])? {
                return Ok(false);
            }
        }
        Ok(true)
    }

    /// The plain run, if it does so at each front of what that writes.
    fn with_rooms(self, input: &[u8]) -> Result<Played, AllocError> {
        let mut plain = self.over(input);
        if !self.fills_all(input, plain.output.as_slice())? {
            plain.output.clear();
        }
        Ok(plain)
    }

    /// The run, as far as a buffered writer passes its output on.
    fn through_buffer(self, input: &[u8]) -> Result<Played, AllocError> {
        let Ok(writer) = BufWriter::new(self.alloc, Vec::new(self.alloc)) else {
            return Err(AllocError);
        };
        let ran = run(self.alloc, self.words, self.bytes, input, writer);
        Ok(Played {
            status: ran.status,
            output: ran.writer.get_ref().clone()?,
            errors: ran.errors,
        })
    }

    /// The run with an output that can't be passed on.
    fn stuck(self, input: &[u8]) -> Played {
        let ran = run(self.alloc, self.words, self.bytes, input, Stuck);
        Played {
            status: ran.status,
            output: Vec::new(self.alloc),
            errors: ran.errors,
        }
    }
}

/// By turns of how many entries each run is played again.
const SLICES: [&str; 4] = ["--slice=1", "--slice=2", "--slice=3", "--slice=1000"];

/// The words of a run of the program with one more, if they don't say by turns of how many entries its commands are carried out.
fn with_slice<'a>(
    alloc: Global,
    words: &[&'a str],
    slice: &'a str,
) -> Result<Option<Vec<&'a str>>, AllocError> {
    match words {
        ["cdi", "run", rest @ ..] if !rest.iter().any(|word| word.starts_with("--slice")) => {
            let mut sliced = vec![in alloc; "cdi", "run", slice]?;
            sliced.extend_from_slice(rest)?;
            Ok(Some(sliced))
        }
        _ => Ok(None),
    }
}

/// The input without the line feed behind its last line.
fn open(input: &[u8]) -> &[u8] {
    input.strip_suffix(b"\n").unwrap_or(input)
}

/// A text, with a byte that is no UTF-8 for each mark of one.
pub(crate) fn bytes_of(alloc: Global, text: &str) -> Result<Vec<u8>, AllocError> {
    let mut bytes = Vec::new(alloc);
    for (index, piece) in text.split("\\xff").enumerate() {
        if index > 0 {
            bytes.push(0xff)?;
        }
        bytes.extend_from_slice(piece.as_bytes())?;
    }
    Ok(bytes)
}

/// What a run comes to over a kind of streams.
pub(crate) fn play_over(run: Run, kind: &str, input: &[u8]) -> Result<Played, AllocError> {
    match kind {
        "open" => Ok(run.over(open(input))),
        "broken" => Ok(run.over(open(input).chain(Broken))),
        "parts" => Ok(run.in_parts(input)),
        "rooms" => run.with_rooms(input),
        "held" => run.through_buffer(input),
        "stuck" => Ok(run.stuck(input)),
        _ => Ok(run.over(input)),
    }
}

/// What it comes to where the input is so many blanks.
pub(crate) fn play_blanks(run: Run, count: u64) -> Played {
    run.over(io::repeat(b' ').take(count))
}
