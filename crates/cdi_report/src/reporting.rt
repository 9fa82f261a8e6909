//! A report on a deployment, from its bytes to the bytes of the output.
ghost use Rattle.std.specs.Prelude.{◌≡◌, ◌≤◌, length, Bool, IfOk, OnOk, IsTrue};
ghost use Rattle.cdi_lines.specs.Served.{Blames};
ghost use Rattle.cdi_prepare.specs.Ready.{ready_of};
ghost use Rattle.cdi_report.specs.Reports as spec;
ghost use Rattle.cdi_report.specs.Verdicts.{outcome_of};

use crate::problem_lines::write_problems;
use crate::reviewing::review_of;
use crate::verdict::Verdict;
use cdi_base::{Names, OrMemory};
use cdi_bodies::MAX_BODIES;
use cdi_lines::{ServeFault, Sink};
use cdi_prepare::{Prepared, prepare};
use cdi_problems::Problem;
use std::alloc::{AllocError, Global};

/// What is told of a deployment, and whether it is accepted.
#[derive(Drop)]
struct Findings {
    lines: Vec<u8>,
    is_accepted: bool,
}

/// Memory ran out before anything was written.
const STARVED: Verdict = Verdict::Fault(ServeFault::Memory);

/// What is told of a deployment with these problems.
fn findings_of(alloc: Global, names: &Names, problems: &[Problem]) -> Result<Findings, AllocError>
    ensures { IfOk result (λ f.
        spec.AreFindings names.now problems.now f.lines.items f.is_accepted) }
{
    if problems.is_empty() {
        return Ok(Findings {
            lines: String::from_str(alloc, "accepted\n")?.into_bytes(),
            is_accepted: true,
        });
    }
    Ok(Findings {
        lines: write_problems(alloc, names, problems)?,
        is_accepted: false,
    })
}

/// What is told of a deployment that was read with its scripts, which are its bodies.
fn findings_in(alloc: Global, prepared: Prepared) -> Result<Findings, AllocError>
    requires { length prepared.scripts.items ≤ MAX_BODIES }
    ensures { IfOk result (λ f. spec.Judges (ready_of prepared) f.lines.items f.is_accepted) }
{
    let review = review_of(alloc, prepared)?;
    findings_of(alloc, &review.deployment.names, review.problems.as_slice())
}

/// Writes what is told of a deployment.
fn write_findings<W: Sink>(lines: &[u8], is_accepted: bool, output: &mut W) -> Verdict
    ensures writes { spec.Writes lines.now is_accepted
        (W.written output.old) (W.written output.new) result }
    ensures passed_on { OnOk (outcome_of result) (IsTrue (W.is_passed_on output.new)) }
    ensures blames { (source : Bool) → Blames (outcome_of result) source source
        (W.has_failed output.old) (W.has_failed output.new) }
{
    match output.write_through(lines) {
        Ok(()) if is_accepted => Verdict::Accepted,
        Ok(()) => Verdict::Refused,
        Err(_) => Verdict::Fault(ServeFault::Write),
    }
}

/// Tells of the bytes of a deployment what is wrong with it: its first fault, its first bad script, or its problems, each on
/// a line (Jakarta CDI 4.0, *Problems detected automatically by the container*); or `accepted`.
///
/// The scripts are the bodies. All is passed on unless writing fails: the verdict is then [`ServeFault::Write`], and a front
/// part of the lines is written. If memory runs out, it is [`ServeFault::Memory`], and nothing is written.
pub fn report<W: Sink>(alloc: Global, deployment: &[u8], output: &mut W) -> Verdict
    ensures reports { spec.ReportsOn deployment.now
        (W.written output.old) (W.written output.new) result }
    ensures passed_on { OnOk (outcome_of result) (IsTrue (W.is_passed_on output.new)) }
    ensures blames { (source : Bool) → Blames (outcome_of result) source source
        (W.has_failed output.old) (W.has_failed output.new) }
{
    match prepare(alloc, deployment) {
        Ok(prepared) => match findings_in(alloc, prepared) {
            Ok(findings) => write_findings(&findings.lines, findings.is_accepted, output),
            Err(_) => STARVED,
        },
        Err(OrMemory::Fault(line)) => write_findings(&line, false, output),
        Err(OrMemory::Memory) => STARVED,
    }
}
