//! What is told on standard error.
ghost use Rattle.std.specs.Prelude.{◌++◌, IsTrue, OnOk, codes};
ghost use Rattle.cdi_lines.specs.Ends.{Tells, WritesAll};
ghost use Rattle.cdi_report.specs.Verdicts.{outcome_of as outcome_of_verdict};
ghost use Rattle.cdi_shell.specs.Endings.{outcome_of as outcome_of_ending};
ghost use Rattle.cdi_program.specs.Lines as lines;
ghost use Rattle.cdi_program.specs.Streams.{output_of};
ghost use Rattle.cdi_program.specs.Telling as spec;

use crate::advising::advise;
use crate::lines::file_line_of;
use cdi_lines::{ServeFault, Sink, WriteFailed};
use cdi_prepare::{hint_for, warning_for};
use cdi_report::Verdict;
use cdi_shell::Ending;
use std::alloc::Global;
use std::fmt::Display;

/// Writes the rest of a line, and passes it on.
fn end_line<E: Sink>(errors: &mut E, rest: &str) -> Result<(), WriteFailed>
    ensures bytes { WritesAll (E.written errors.old) (E.written errors.new) result
        (rest.now ++ codes "\n") }
    ensures failed { Tells result (E.has_failed errors.old) (E.has_failed errors.new) }
    ensures passed_on { OnOk result (IsTrue (E.is_passed_on errors.new)) }
{
    errors.write(rest.as_bytes())?;
    errors.write_through(b"\n")
}

/// Writes the line that names a cause.
fn write_cause<E: Sink>(errors: &mut E, cause: &str) -> Result<(), WriteFailed>
    ensures bytes { WritesAll (E.written errors.old) (E.written errors.new) result
        (lines.cause_line cause.now) }
    ensures failed { Tells result (E.has_failed errors.old) (E.has_failed errors.new) }
    ensures passed_on { OnOk result (IsTrue (E.is_passed_on errors.new)) }
{
    errors.write(b"cdi: ")?;
    end_line(errors, cause)
}

/// Tells the user of a cause. Where that fails nobody can be told, and the exit status has to say all.
pub(crate) fn tell<E: Sink>(errors: &mut E, cause: &str)
    ensures { spec.PassesOn (lines.cause_line cause.now)
        (output_of E.written E.has_failed E.is_passed_on errors.old)
        (output_of E.written E.has_failed E.is_passed_on errors.new) }
{
    let _ = write_cause(errors, cause);
}

/// Tells the user what stands in a text, as far as it can be told.
pub(crate) fn tell_text<E: Sink>(errors: &mut E, text: &str)
    ensures { spec.PassesOn text.now
        (output_of E.written E.has_failed E.is_passed_on errors.old)
        (output_of E.written E.has_failed E.is_passed_on errors.new) }
{
    let _ = errors.write_through(text.as_bytes());
}

/// Tells the user what is wrong with a file.
pub(crate) fn tell_of_file<E: Sink, C: Display>(
    alloc: Global,
    errors: &mut E,
    file: &str,
    cause: &C,
)
    ensures { spec.TellsOfFile file.now (C.output cause.now)
        (output_of E.written E.has_failed E.is_passed_on errors.old)
        (output_of E.written E.has_failed E.is_passed_on errors.new) }
{
    match file_line_of(alloc, file, cause) {
        Ok(line) => tell_text(errors, &line),
        Err(_) => tell(errors, ServeFault::Memory.text()),
    }
}

/// Tells the user what is wrong with a refused deployment beyond what its line says.
fn tell_hint<E: Sink>(alloc: Global, file: &str, bytes: &[u8], errors: &mut E)
    ensures { spec.TellsRefused file.now bytes.now
        (output_of E.written E.has_failed E.is_passed_on errors.old)
        (output_of E.written E.has_failed E.is_passed_on errors.new) }
{
    match hint_for(alloc, bytes) {
        Ok(Some(hint)) => tell_of_file(alloc, errors, file, &hint),
        Ok(None) => advise(alloc, file, bytes, errors),
        Err(_) => tell(errors, ServeFault::Memory.text()),
    }
}

/// Warns the user of a key that stands twice in an object of a deployment, if there is one.
pub(crate) fn tell_warning<E: Sink>(alloc: Global, file: &str, bytes: &[u8], errors: &mut E)
    ensures { spec.Warns file.now bytes.now
        (output_of E.written E.has_failed E.is_passed_on errors.old)
        (output_of E.written E.has_failed E.is_passed_on errors.new) }
{
    match warning_for(alloc, bytes) {
        Ok(Some(warning)) => tell_of_file(alloc, errors, file, &warning),
        Ok(None) => {}
        Err(_) => tell(errors, ServeFault::Memory.text()),
    }
}

/// Tells the user of a refused deployment what there is to say: the warning, and then what is wrong.
pub(crate) fn tell_refused<E: Sink>(alloc: Global, file: &str, bytes: &[u8], errors: &mut E)
    ensures { spec.WarnsAndTells file.now bytes.now
        (output_of E.written E.has_failed E.is_passed_on errors.old)
        (output_of E.written E.has_failed E.is_passed_on errors.new) }
{
    tell_warning(alloc, file, bytes, errors);
    tell_hint(alloc, file, bytes, errors);
}

/// Tells the user of a fault. What is held back still goes out if it can.
fn tell_fault<W: Sink, E: Sink>(fault: ServeFault, output: &mut W, errors: &mut E)
    ensures flushed { spec.IsFlushed
        (output_of W.written W.has_failed W.is_passed_on output.old)
        (output_of W.written W.has_failed W.is_passed_on output.new) }
    ensures tells { spec.TellsFault fault
        (output_of E.written E.has_failed E.is_passed_on errors.old)
        (output_of E.written E.has_failed E.is_passed_on errors.new) }
{
    let _ = output.flush();
    tell(errors, fault.text());
}

/// Tells the user how a run ended, unless it has been said, with the warning for its deployment, if there is one.
pub(crate) fn tell_ending<W: Sink, E: Sink>(
    alloc: Global,
    ending: Ending,
    file: &str,
    bytes: &[u8],
    output: &mut W,
    errors: &mut E,
)
    ensures left { spec.IsLeft (outcome_of_ending ending)
        (output_of W.written W.has_failed W.is_passed_on output.old)
        (output_of W.written W.has_failed W.is_passed_on output.new) }
    ensures tells { spec.TellsEnding file.now bytes.now ending
        (output_of E.written E.has_failed E.is_passed_on errors.old)
        (output_of E.written E.has_failed E.is_passed_on errors.new) }
{
    match ending {
        Ending::Fine | Ending::Halted(_) => tell_warning(alloc, file, bytes, errors),
        Ending::Refused => tell_refused(alloc, file, bytes, errors),
        Ending::Fault { fault, .. } => tell_fault(fault, output, errors),
    }
}

/// The same for a report.
pub(crate) fn tell_verdict<W: Sink, E: Sink>(
    alloc: Global,
    verdict: Verdict,
    file: &str,
    bytes: &[u8],
    output: &mut W,
    errors: &mut E,
)
    ensures left { spec.IsLeft (outcome_of_verdict verdict)
        (output_of W.written W.has_failed W.is_passed_on output.old)
        (output_of W.written W.has_failed W.is_passed_on output.new) }
    ensures tells { spec.TellsVerdict file.now bytes.now verdict
        (output_of E.written E.has_failed E.is_passed_on errors.old)
        (output_of E.written E.has_failed E.is_passed_on errors.new) }
{
    match verdict {
        Verdict::Accepted => tell_warning(alloc, file, bytes, errors),
        Verdict::Refused => tell_refused(alloc, file, bytes, errors),
        Verdict::Fault(fault) => tell_fault(fault, output, errors),
    }
}
