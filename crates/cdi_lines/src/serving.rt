//! Serving the lines of an input, from its beginning to its end.
ghost use Rattle.std.specs.Prelude.{◌≡◌, ◌≢◌, [], Err, IsTrue, OnOk, MatchResult};
ghost use Rattle.std.specs.Io.{ReadsAtMost};
ghost use Rattle.std.specs.Io.KnownBytes.{Keeps, ReadConsumes};
ghost use Rattle.cdi_lines.specs.Served.{AnswersEnded, Blames, Reads, Serves};

use crate::answer::{answer_last, answer_piece};
use crate::fault::ServeFault;
use crate::responder::Responder;
use crate::sink::Sink;
use crate::source::Source;
use std::alloc::Global;

/// The most bytes of an input.
pub const MAX_INPUT: usize = 16_777_216;

/// The most bytes of a read.
const PIECE: usize = 4_096;

/// Has the output pass on what it holds back, since the other side may wait for it, and then reads once.
fn read_next<R: Source, W: Sink>(
    input: &mut R,
    output: &mut W,
    buf: &mut [u8],
) -> Result<usize, ServeFault>
    ensures bound { ReadsAtMost result buf.new }
    ensures bytes { ReadConsumes (R.unread input.old) (R.unread input.new) result buf.new }
    ensures kept { Keeps (W.written output.old) (W.written output.new) }
    ensures blames { Blames result
        (R.has_failed input.old) (R.has_failed input.new)
        (W.has_failed output.old) (W.has_failed output.new) }
    ensures not_too_long { result ≢ Err ServeFault.TooLong }
    ensures passed_on { OnOk result (IsTrue (W.is_passed_on output.new)) }
{
    output.flush()?;
    let count = input.read(buf, output)?;
    Ok(count)
}

/// Nothing may follow where as much was read as is allowed.
fn expect_end<R: Source, W: Sink>(input: &mut R, output: &mut W) -> Result<(), ServeFault>
    ensures read { Reads result (R.unread input.old) (R.unread input.new) [] }
    ensures kept { Keeps (W.written output.old) (W.written output.new) }
    ensures blames { Blames result
        (R.has_failed input.old) (R.has_failed input.new)
        (W.has_failed output.old) (W.has_failed output.new) }
    ensures passed_on { OnOk result (IsTrue (W.is_passed_on output.new)) }
{
    let mut next = [0u8; 1];
    if read_next(input, output, &mut next)? > 0 {
        return Err(ServeFault::TooLong);
    }
    Ok(())
}

/// Reads to the end, and answers each line as soon as a line feed ends it. Gives what stands behind the last.
fn answer_ended<R: Source, W: Sink, A: Responder>(
    alloc: Global,
    limit: usize,
    input: &mut R,
    output: &mut W,
    responder: &mut A,
) -> Result<Vec<u8>, ServeFault>
    ensures ended { MatchResult result
        (λ line. AnswersEnded limit A.answers responder.old responder.new line.items
        (R.unread input.old) (R.unread input.new) (W.written output.old) (W.written output.new))
        (λ fault. Serves limit A.answers [] responder.old responder.new (Err fault)
        (R.unread input.old) (R.unread input.new) (W.written output.old) (W.written output.new)) }
    ensures blames { Blames result
        (R.has_failed input.old) (R.has_failed input.new)
        (W.has_failed output.old) (W.has_failed output.new) }
    ensures passed_on { OnOk result (IsTrue (W.is_passed_on output.new)) }
{
    let mut line = Vec::new(alloc);
    let mut buf = [0u8; PIECE];
    let mut left = limit;
    while left > 0 {
        let most = left.min(PIECE);
        let count = read_next(input, output, &mut buf[..most])?;
        if count == 0 {
            return Ok(line);
        }
        answer_piece(alloc, &buf[..count], &mut line, output, responder)?;
        left -= count;
    }
    expect_end(input, output)?;
    Ok(line)
}

/// The same as [`serve_lines`], for at most `limit` bytes.
pub fn serve_up_to<R: Source, W: Sink, A: Responder>(
    alloc: Global,
    limit: usize,
    greeting: &[u8],
    input: &mut R,
    output: &mut W,
    responder: &mut A,
) -> Result<(), ServeFault>
    ensures served { Serves limit A.answers greeting.now responder.old responder.new result
        (R.unread input.old) (R.unread input.new) (W.written output.old) (W.written output.new) }
    ensures passed_on { OnOk result (IsTrue (W.is_passed_on output.new)) }
    ensures blames { Blames result
        (R.has_failed input.old) (R.has_failed input.new)
        (W.has_failed output.old) (W.has_failed output.new) }
{
    output.write(greeting)?;
    let line = answer_ended(alloc, limit, input, output, responder)?;
    answer_last(alloc, &line, output, responder)
}

/// Writes a greeting, and then answers the lines of an input up to its end, each as soon as it is complete. A line
/// ends with a line feed, which isn't part of it; what stands behind the last line feed is a line unless it is empty.
/// Whatever is held back is passed on before each read and at the end.
///
/// Whatever the result is, what was written is the greeting and the replies to whole lines in front, one after the
/// other: all of them at `Ok`; where a read failed, or more than [`MAX_INPUT`] bytes came, those to the lines that ended
/// before; where memory ran out, those before the line in hand, which may have been answered too; and where a write or
/// a flush failed, a front part of the whole. What stands behind the last line feed is answered only at the end.
///
/// A fault of reading comes only from a read that failed, and one of writing only from a write or a flush that did.
pub fn serve_lines<R: Source, W: Sink, A: Responder>(
    alloc: Global,
    greeting: &[u8],
    input: &mut R,
    output: &mut W,
    responder: &mut A,
) -> Result<(), ServeFault>
    ensures served { Serves MAX_INPUT A.answers greeting.now responder.old responder.new result
        (R.unread input.old) (R.unread input.new) (W.written output.old) (W.written output.new) }
    ensures passed_on { OnOk result (IsTrue (W.is_passed_on output.new)) }
    ensures blames { Blames result
        (R.has_failed input.old) (R.has_failed input.new)
        (W.has_failed output.old) (W.has_failed output.new) }
{
    serve_up_to(alloc, MAX_INPUT, greeting, input, output, responder)
}
