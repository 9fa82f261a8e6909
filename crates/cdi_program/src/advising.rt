//! The hints for the problems of a deployment, on standard error.
ghost use Rattle.std.specs.Prelude.{◌≡◌, ◌++◌, string_bytes, IfOk, OnOk};
ghost use Rattle.cdi_prepare.specs.Ready.{readied_in};
ghost use Rattle.cdi_problem_hints.specs.Subjects.{subject_of};
ghost use Rattle.cdi_program.specs.Advice as spec;
ghost use Rattle.cdi_program.specs.Streams.{output_of};
ghost use Rattle.cdi_program.specs.Telling as telling;

use crate::lines::{add_line, file_line};
use crate::telling::{tell, tell_text};
use cdi_base::Text;
use cdi_findings::{HintTables, fault_name, position_of_problem, unhinted_text};
use cdi_lines::{ServeFault, Sink};
use cdi_positions::Position;
use cdi_problem_hints::{Subject, problem_hint};
use cdi_problems::Problem;
use cdi_report::{Review, review_bytes};
use std::alloc::{AllocError, Global};

/// The most problems of a deployment that get a hint.
const MAX_HINTS: usize = 50;

/// What stands in front of a hint: the position of a text, if one is known.
fn front_of(alloc: Global, position: Option<Position>) -> Result<String, AllocError>
    ensures { IfOk result (λ text. string_bytes text ≡ spec.position_front position) }
{
    match position {
        Some(position) => format!(in alloc; "{position}: "),
        None => Ok(String::new(alloc)),
    }
}

/// The lines of the hints for problems, in their order. The bytes are those from which the deployment was read.
fn hint_lines(
    alloc: Global,
    file: &str,
    bytes: &[u8],
    subject: &Subject<'_>,
    problems: &[Problem],
) -> Result<String, AllocError>
    ensures { IfOk result (λ lines. spec.AreHintLines file.now bytes.now (subject_of subject.now)
        problems.now (string_bytes lines)) }
{
    let mut lines = String::new(alloc);
    for problem in problems {
        let position = position_of_problem(alloc, bytes, subject.deployment, problem)?;
        let front = front_of(alloc, position)?;
        let hint = problem_hint(alloc, subject, problem)?;
        let hint = hint.as_str();
        add_line(
            alloc,
            file,
            &format!(in alloc; "{front}{hint}")?,
            &mut lines,
        )?;
    }
    Ok(lines)
}

/// Adds the line that tells how many problems have no hint, if there are such.
fn add_rest(alloc: Global, file: &str, count: usize, advice: &mut String) -> Result<(), AllocError>
    ensures { OnOk result
        (string_bytes advice.new ≡ string_bytes advice.old ++ spec.rest_line file.now count) }
{
    if count == 0 {
        return Ok(());
    }
    let rest = format!(in alloc; "and {count} more problems")?;
    add_line(alloc, file, &rest, advice)
}

/// The lines of the hints for the first [`MAX_HINTS`] problems, and one that tells how many more there are.
fn advice_on(
    alloc: Global,
    file: &str,
    bytes: &[u8],
    subject: &Subject<'_>,
    problems: &[Problem],
) -> Result<Text, AllocError>
    ensures { IfOk result
        (spec.IsAdviceText file.now bytes.now (subject_of subject.now) problems.now) }
{
    let hinted = problems.len().min(MAX_HINTS);
    let mut advice = hint_lines(alloc, file, bytes, subject, &problems[..hinted])?;
    add_rest(alloc, file, problems.len() - hinted, &mut advice)?;
    Ok(Text::new(advice))
}

fn review_advice(
    alloc: Global,
    file: &str,
    bytes: &[u8],
    review: Review,
) -> Result<Text, AllocError>
    ensures { IfOk result
        (spec.IsAdviceWith file.now bytes.now review.deployment review.scripts review.problems) }
{
    let Review {
        deployment,
        scripts,
        problems,
    } = review;
    let tables = HintTables::build(alloc, &deployment, problems.as_slice())?;
    let subject = tables.subject(scripts.as_slice());
    advice_on(alloc, file, bytes, &subject, problems.as_slice())
}

/// The line that tells of a fault for which there is no hint.
fn fault_advice(alloc: Global, file: &str, bytes: &[u8]) -> Result<Text, AllocError>
    ensures { IfOk result
        (λ advice. advice ≡ spec.fault_advice file.now (readied_in bytes.now)) }
{
    let name = fault_name(alloc, bytes)?;
    Ok(Text::new(file_line(alloc, file, unhinted_text(&name))?))
}

/// The hints for the problems of the deployment that bytes are, or that for their fault.
fn advice_for(alloc: Global, file: &str, bytes: &[u8]) -> Result<Text, AllocError>
    ensures { IfOk result (spec.IsAdviceFor file.now bytes.now (readied_in bytes.now)) }
{
    match review_bytes(alloc, bytes) {
        Ok(Some(review)) => review_advice(alloc, file, bytes, review),
        Ok(None) => fault_advice(alloc, file, bytes),
        Err(error) => Err(error),
    }
}

/// Tells the user of the problems of a deployment more than their lines do, by a hint for each (see
/// [`problem_hint`]). Of more than [`MAX_HINTS`] problems the first get one, and a line tells how many more there
/// are. Of a deployment that can't be read it tells why in a few words.
pub(crate) fn advise<E: Sink>(alloc: Global, file: &str, bytes: &[u8], errors: &mut E)
    ensures { telling.Advises file.now bytes.now
        (output_of E.written E.has_failed E.is_passed_on errors.old)
        (output_of E.written E.has_failed E.is_passed_on errors.new) }
{
    match advice_for(alloc, file, bytes) {
        Ok(advice) => tell_text(errors, advice.as_str()),
        Err(_) => tell(errors, ServeFault::Memory.text()),
    }
}
