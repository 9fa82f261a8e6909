//! The problems of a picture.
ghost use Rattle.std.specs.Prelude.{◌≡◌, ◌++◌, string_bytes, IfOk, OnOk};
ghost use Rattle.cdi_pictures.specs.Problems as spec;
ghost use Rattle.cdi_problems.specs.Words.{problem_text};

use crate::edge::{Edge, Look, add_edge};
use cdi_base::{Name, Names, Place};
use cdi_problems::{Problem, ProblemText, name_text};
use std::alloc::{AllocError, Global};

/// The note of a problem.
fn note_line(alloc: Global, problem: &str) -> Result<String, AllocError>
    ensures { IfOk result (λ line. string_bytes line ≡ spec.note_line problem.now) }
{
    format!(in alloc; "  \"{problem}\" [shape=note, style=solid, color=red];\n")
}

/// The class, the interceptor or the name of a list to which a place belongs.
fn owner_of(place: &Place) -> Name
    ensures { result ≡ spec.owner_of place.now }
{
    match place {
        Place::Class(name) => *name,
        Place::Member { class, .. } => *class,
        Place::Constructor(class) => *class,
        Place::Interceptor { interceptor, .. } => *interceptor,
    }
}

/// Adds the edge from a note to what has the problem, if it stands somewhere.
fn add_at(
    alloc: Global,
    names: &Names,
    problem: &str,
    place: &Option<Place>,
    text: &mut String,
) -> Result<(), AllocError>
    ensures { OnOk result (string_bytes text.new ≡ string_bytes text.old
        ++ spec.at_line names.now problem.now place.now) }
{
    match place {
        Some(place) => {
            let edge = Edge {
                source: problem,
                target: name_text(names, owner_of(place)),
                label: "at",
                look: Look::Red,
            };
            add_edge(alloc, &edge, text)
        }
        None => Ok(()),
    }
}

fn add_problem(
    alloc: Global,
    names: &Names,
    problem: &Problem,
    text: &mut String,
) -> Result<(), AllocError>
    ensures { OnOk result (string_bytes text.new ≡ string_bytes text.old
        ++ spec.noted_text names.now (problem_text names.now problem.now) problem.now.place) }
{
    let place = &problem.place;
    let problem = ProblemText { names, problem };
    let problem = format!(in alloc; "{problem}")?;
    let note = note_line(alloc, &problem)?;
    text.push_str(&note)?;
    add_at(alloc, names, &problem, place, text)
}

/// Adds the problems (Jakarta CDI 4.0, *Problems detected automatically by the container*), each as a note at what has it.
pub(crate) fn add_problems(
    alloc: Global,
    names: &Names,
    problems: &[Problem],
    text: &mut String,
) -> Result<(), AllocError>
    ensures { OnOk result (string_bytes text.new ≡ string_bytes text.old
        ++ spec.problems_text names.now problems.now) }
{
    for problem in problems {
        add_problem(alloc, names, problem, text)?;
    }
    Ok(())
}
