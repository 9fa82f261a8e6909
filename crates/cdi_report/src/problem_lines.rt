//! The problems of a deployment, as lines.
ghost use Rattle.std.specs.Prelude.{◌≡◌, IfOk, string_bytes};
ghost use Rattle.cdi_report.specs.Reports as spec;

use cdi_base::Names;
use cdi_problems::{Problem, ProblemText};
use std::alloc::{AllocError, Global};

/// The line of a problem.
fn problem_line(alloc: Global, names: &Names, problem: &Problem) -> Result<String, AllocError>
    ensures { IfOk result (λ line. string_bytes line ≡ spec.problem_line names.now problem.now) }
{
    let problem = ProblemText { names, problem };
    format!(in alloc; "{problem}\n")
}

/// The lines of problems (Jakarta CDI 4.0, *Problems detected automatically by the container*): one for each, in their
/// order. The one error is [`AllocError`], if a growth was refused.
pub fn write_problems(
    alloc: Global,
    names: &Names,
    problems: &[Problem],
) -> Result<Vec<u8>, AllocError>
    ensures { IfOk result (λ lines. lines.items ≡ spec.problem_lines names.now problems.now) }
{
    let mut lines = Vec::new(alloc);
    for problem in problems {
        let line = problem_line(alloc, names, problem)?;
        lines.extend_from_slice(line.as_bytes())?;
    }
    Ok(lines)
}
