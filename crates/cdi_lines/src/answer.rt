//! Lines to their replies.
ghost use Rattle.std.specs.Prelude.{◌≡◌, ◌==◌, ◌∷◌, [], ℕ, Bool, List, position, IsTrue, OnOk};
ghost use Rattle.std.specs.Io.KnownBytes.{Appends};
ghost use Rattle.cdi_lines.specs.Lines.{ended_lines, begun_line, last_line};
ghost use Rattle.cdi_lines.specs.Served.{Answered, Blames};

use crate::fault::ServeFault;
use crate::responder::Responder;
use crate::sink::Sink;
use memchr::memchr;
use std::alloc::Global;

/// The byte that ends a line.
const LINE_FEED: u8 = b'\n';

/// Answers a line, and writes the reply whole.
fn answer_line<W: Sink, A: Responder>(
    alloc: Global,
    line: &[u8],
    output: &mut W,
    responder: &mut A,
) -> Result<(), ServeFault>
    ensures answered { (out : List ℕ)
        × Appends (W.written output.old) (W.written output.new) out
        × Answered A.answers (line.now ∷ []) responder.old responder.new result out }
    ensures blames { (source : Bool)
        → Blames result source source (W.has_failed output.old) (W.has_failed output.new) }
{
    let reply = responder.answer(alloc, line)?;
    output.write(&reply)?;
    Ok(())
}

/// Where the first line ends.
fn line_end(bytes: &[u8]) -> Option<usize>
    ensures { result ≡ position (λ byte. byte == 10) bytes.now }
{
    memchr(LINE_FEED, bytes)
}

/// Answers each line that ends in a piece of the input. The line that has begun before it stands in `line`, and
/// afterwards the one that has begun in it does.
pub(crate) fn answer_piece<W: Sink, A: Responder>(
    alloc: Global,
    piece: &[u8],
    line: &mut Vec<u8>,
    output: &mut W,
    responder: &mut A,
) -> Result<(), ServeFault>
    ensures answered { (out : List ℕ)
        × Appends (W.written output.old) (W.written output.new) out
        × Answered A.answers (ended_lines line.old.items piece.now) responder.old responder.new result out }
    ensures begun { OnOk result (line.new.items ≡ begun_line line.old.items piece.now) }
    ensures blames { (source : Bool)
        → Blames result source source (W.has_failed output.old) (W.has_failed output.new) }
{
    let mut rest = piece;
    while let Some(end) = line_end(rest) {
        line.extend_from_slice(&rest[..end])?;
        answer_line(alloc, line, output, responder)?;
        line.clear();
        rest = &rest[end + 1..];
    }
    line.extend_from_slice(rest)?;
    Ok(())
}

/// Answers what stands behind the last line feed, unless it is empty.
pub(crate) fn answer_last<W: Sink, A: Responder>(
    alloc: Global,
    line: &[u8],
    output: &mut W,
    responder: &mut A,
) -> Result<(), ServeFault>
    ensures answered { (out : List ℕ)
        × Appends (W.written output.old) (W.written output.new) out
        × Answered A.answers (last_line line.now) responder.old responder.new result out }
    ensures passed_on { IsTrue (W.is_passed_on output.old)
        → OnOk result (IsTrue (W.is_passed_on output.new)) }
    ensures blames { (source : Bool)
        → Blames result source source (W.has_failed output.old) (W.has_failed output.new) }
{
    if line.is_empty() {
        return Ok(());
    }
    answer_line(alloc, line, output, responder)?;
    output.flush()?;
    Ok(())
}
