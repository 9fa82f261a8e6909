//! The bytes of a deployment that stands in the input.
ghost use Rattle.std.specs.Prelude.{◌≡◌, IsTrue, OnOk, MatchResult};
ghost use Rattle.std.specs.Io.KnownBytes.{Keeps};
ghost use Rattle.cdi_lines.specs.Served.{Blames};
ghost use Rattle.cdi_program.specs.Taken.{TakesFront, TakesSome};

use cdi_lines::{ServeFault, Sink, Source};
use std::alloc::Global;

/// The most bytes of a read.
const PIECE: usize = 4_096;

/// Reads up to the end of an input, or up to so many bytes.
fn read_up_to<R: Source, W: Sink>(
    alloc: Global,
    most: usize,
    input: &mut R,
    output: &W,
) -> Result<Vec<u8>, ServeFault>
    requires { IsTrue (W.is_passed_on output.now) }
    ensures takes { MatchResult result
        (λ bytes. TakesFront most (R.unread input.old) (R.unread input.new) bytes.items)
        (λ _. TakesSome most (R.unread input.old) (R.unread input.new)) }
    ensures blames { Blames result (R.has_failed input.old) (R.has_failed input.new)
        (W.has_failed output.now) (W.has_failed output.now) }
{
    let mut bytes = Vec::new(alloc);
    let mut buf = [0u8; PIECE];
    let mut left = most;
    while left > 0 {
        let room = left.min(PIECE);
        let count = input.read(&mut buf[..room], output)?;
        if count == 0 {
            return Ok(bytes);
        }
        bytes.extend_from_slice(&buf[..count])?;
        left -= count;
    }
    Ok(bytes)
}

/// Takes the first bytes of an input, and no more than `most`. The output passes on what it holds back before, since the other side
/// may wait for it.
pub(crate) fn take_front<R: Source, W: Sink>(
    alloc: Global,
    most: usize,
    input: &mut R,
    output: &mut W,
) -> Result<Vec<u8>, ServeFault>
    ensures takes { MatchResult result
        (λ bytes. TakesFront most (R.unread input.old) (R.unread input.new) bytes.items)
        (λ _. TakesSome most (R.unread input.old) (R.unread input.new)) }
    ensures kept { Keeps (W.written output.old) (W.written output.new) }
    ensures blames { Blames result (R.has_failed input.old) (R.has_failed input.new)
        (W.has_failed output.old) (W.has_failed output.new) }
    ensures passed_on { OnOk result (IsTrue (W.is_passed_on output.new)) }
{
    output.flush()?;
    read_up_to(alloc, most, input, output)
}
