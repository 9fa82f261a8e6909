//! Lines of refused deployments that were written by hand, among them those that no text of a deployment comes to.
use cdi_base::{Names, Place, Text, is_name};
use cdi_deploy::ReadFault;
use cdi_prepare::fault_text::{write_fault, write_script_fault};
use cdi_problems::{Problem, ProblemKind};
use cdi_report::problem_lines::write_problems;
use cdi_script::ScriptFault;
use std::alloc::{AllocError, Global};

/// Each kind of problem.
const KINDS: [ProblemKind; 22] = [
    ProblemKind::DuplicateName,
    ProblemKind::UnknownName,
    ProblemKind::CyclicHierarchy,
    ProblemKind::AbstractBean,
    ProblemKind::TypedNotAType,
    ProblemKind::SpecializesNothing,
    ProblemKind::SpecializedTypeLost,
    ProblemKind::UnmatchedDisposer,
    ProblemKind::TwoDisposers,
    ProblemKind::ConditionalDependent,
    ProblemKind::TwoBindingsOfOneType,
    ProblemKind::UnknownBody,
    ProblemKind::BodyOutsideShape,
    ProblemKind::ProceedNotAllowed,
    ProblemKind::CheckedLifecycle,
    ProblemKind::Unsatisfied,
    ProblemKind::Ambiguous,
    ProblemKind::Unproxyable,
    ProblemKind::InconsistentSpecialization,
    ProblemKind::DependentCycle,
    ProblemKind::FinalIntercepted,
    ProblemKind::TooMany,
];

fn add_name(names: &mut Names, text: &str) -> Result<(), AllocError> {
    if !is_name(text) {
        return Err(AllocError);
    }
    match names.intern(text) {
        Ok(_) => Ok(()),
        Err(_) => Err(AllocError),
    }
}

/// The built-in names, a class `K` and a member `up`.
fn table(alloc: Global) -> Result<Names, AllocError> {
    let mut names = Names::with_built_in(alloc)?;
    add_name(&mut names, "K")?;
    add_name(&mut names, "up")?;
    Ok(names)
}

/// Adds a problem of each kind, of the member.
fn push_kinds(names: &Names, problems: &mut Vec<Problem>) -> Result<(), AllocError> {
    let (class, member) = (names.name_for("K"), names.name_for("up"));
    for kind in KINDS {
        problems.push(Problem {
            kind,
            place: Some(Place::Member { class, member }),
        })?;
    }
    Ok(())
}

/// Problems whose order is neither that of their words nor that of their kinds.
fn unsorted_problems(names: &Names) -> [Problem; 3] {
    let class = names.name_for("K");
    [
        Problem {
            kind: ProblemKind::UnknownBody,
            place: Some(Place::Constructor(class)),
        },
        Problem {
            kind: ProblemKind::DuplicateName,
            place: Some(Place::Class(class)),
        },
        Problem {
            kind: ProblemKind::TooMany,
            place: None,
        },
    ]
}

fn lines_of(alloc: Global, names: &Names) -> Result<Vec<u8>, AllocError> {
    let mut problems = Vec::new(alloc);
    push_kinds(names, &mut problems)?;
    problems.extend(unsorted_problems(names))?;
    write_problems(alloc, names, problems.as_slice())
}

/// The lines of these problems.
pub(crate) fn problem_lines(alloc: Global) -> Result<Vec<u8>, AllocError> {
    lines_of(alloc, &table(alloc)?)
}

fn push_fault(alloc: Global, lines: &mut Vec<u8>, fault: &ReadFault) -> Result<(), AllocError> {
    let line = write_fault(alloc, fault)?;
    lines.extend_from_slice(&line)
}

fn push_shape(alloc: Global, lines: &mut Vec<u8>, path: &str) -> Result<(), AllocError> {
    let path = Text::from_str(alloc, path)?;
    push_fault(alloc, lines, &ReadFault::Shape(path))
}

fn push_script(
    alloc: Global,
    lines: &mut Vec<u8>,
    script: &str,
    fault: ScriptFault,
) -> Result<(), AllocError> {
    let line = write_script_fault(alloc, script, fault)?;
    lines.extend_from_slice(&line)
}

/// The lines of faults of deployments and of scripts.
fn push_faults(alloc: Global, lines: &mut Vec<u8>) -> Result<(), AllocError> {
    push_fault(alloc, lines, &ReadFault::TooLong)?;
    push_fault(alloc, lines, &ReadFault::NotJson)?;
    push_fault(alloc, lines, &ReadFault::BadNumber)?;
    push_fault(alloc, lines, &ReadFault::BadName)?;
    push_fault(alloc, lines, &ReadFault::TooMany)?;
    push_shape(alloc, lines, "")?;
    push_shape(alloc, lines, "/classes/0/name")?;
    push_script(alloc, lines, "up", ScriptFault::BadStep)?;
    push_script(alloc, lines, "K", ScriptFault::TooLong)?;
    push_script(alloc, lines, "Log_1.x$", ScriptFault::Full)
}

/// The lines of faults of deployments and of scripts.
pub(crate) fn fault_lines(alloc: Global) -> Result<Vec<u8>, AllocError> {
    let mut lines = Vec::new(alloc);
    push_faults(alloc, &mut lines)?;
    Ok(lines)
}
