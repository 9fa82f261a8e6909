//! The hint for a problem.
ghost use Rattle.std.specs.Prelude.{◌≡◌, ◌++◌, string_bytes, IfOk, OnOk};
ghost use Rattle.std.specs.List.{flat_map};
ghost use Rattle.std.specs.Option.{option_copied};
ghost use Rattle.cdi_problem_hints.specs.Hints as spec;
ghost use Rattle.cdi_problem_hints.specs.Subjects.{subject_of};
ghost use Rattle.cdi_problems.specs.Elements.{element_of, elements_of, shown};

use crate::at::elements_at;
use crate::body::add_unknown_bodies;
use crate::cycle::add_dependent_cycle;
use crate::near::add_unsatisfied;
use crate::point::add_points;
use crate::rule::rule_text;
use crate::script::add_scripts;
use crate::sentence::add_sentences;
use crate::specializer::add_specializers;
use crate::subject::Subject;
use cdi_base::Text;
use cdi_cycle_hints::add_hierarchy;
use cdi_name_uses::unknown_names;
use cdi_problems::{Element, Problem, ProblemKind, ProblemText};
use std::alloc::{AllocError, Global};

/// Adds what is told of an element that has a problem.
fn add_details(
    alloc: Global,
    subject: &Subject<'_>,
    kind: ProblemKind,
    element: &Element<'_>,
    hint: &mut String,
) -> Result<(), AllocError>
    ensures { OnOk result (string_bytes hint.new ≡ string_bytes hint.old
        ++ spec.details subject.now.deployment.now (option_copied subject.now.tables) kind
        (element_of element.now)) }
{
    let deployment = subject.deployment;
    match kind {
        ProblemKind::UnknownName => {
            let unknown = unknown_names(alloc, deployment, element)?;
            add_sentences(alloc, deployment, element, unknown.as_slice(), hint)
        }
        ProblemKind::CyclicHierarchy => add_hierarchy(alloc, deployment, element, hint),
        ProblemKind::Ambiguous => {
            add_points(alloc, &deployment.names, subject.tables, element, hint)
        }
        ProblemKind::Unsatisfied => add_unsatisfied(alloc, subject, element, hint),
        ProblemKind::Unproxyable => add_points(alloc, &deployment.names, None, element, hint),
        _ => Ok(()),
    }
}

fn add_each(
    alloc: Global,
    subject: &Subject<'_>,
    kind: ProblemKind,
    elements: &[Element<'_>],
    hint: &mut String,
) -> Result<(), AllocError>
    ensures { OnOk result (string_bytes hint.new ≡ string_bytes hint.old
        ++ flat_map
        (spec.details subject.now.deployment.now (option_copied subject.now.tables) kind)
        (shown elements.now)) }
{
    for element in elements {
        add_details(alloc, subject, kind, element, hint)?;
    }
    Ok(())
}

/// Adds what is told of the elements at the place of a problem.
fn add_element_details(
    alloc: Global,
    subject: &Subject<'_>,
    problem: &Problem,
    hint: &mut String,
) -> Result<(), AllocError>
    ensures { OnOk result (string_bytes hint.new ≡ string_bytes hint.old
        ++ flat_map
        (spec.details_at subject.now.deployment.now (option_copied subject.now.tables)
        problem.now)
        (elements_of subject.now.deployment.now)) }
{
    let elements = elements_at(subject, &problem.place);
    add_each(alloc, subject, problem.kind, elements, hint)
}

/// Adds what is told of the scripts at the place of a problem.
#[tactic(auto, unfolding(crate::specs::Hints::script_details))]
fn add_script_details(
    alloc: Global,
    subject: &Subject<'_>,
    problem: &Problem,
    hint: &mut String,
) -> Result<(), AllocError>
    ensures { OnOk result (string_bytes hint.new ≡ string_bytes hint.old
        ++ spec.script_details subject.now.deployment.now subject.now.scripts.now
        problem.now.place problem.now.kind) }
{
    match problem.kind {
        ProblemKind::UnknownBody => add_unknown_bodies(alloc, subject, &problem.place, hint),
        ProblemKind::BodyOutsideShape => add_scripts(alloc, subject, &problem.place, hint),
        _ => Ok(()),
    }
}

/// Adds what is told of the bean at the place of a problem.
#[tactic(auto, unfolding(crate::specs::Hints::bean_details))]
fn add_bean_details(
    alloc: Global,
    subject: &Subject<'_>,
    problem: &Problem,
    hint: &mut String,
) -> Result<(), AllocError>
    ensures { OnOk result (string_bytes hint.new ≡ string_bytes hint.old
        ++ spec.bean_details subject.now.deployment.now (option_copied subject.now.tables)
        problem.now.place problem.now.kind) }
{
    match problem.kind {
        ProblemKind::InconsistentSpecialization => {
            add_specializers(alloc, subject, &problem.place, hint)
        }
        ProblemKind::DependentCycle => add_dependent_cycle(alloc, subject, &problem.place, hint),
        _ => Ok(()),
    }
}

/// What is told of a problem of a deployment beyond its line: the rule that it breaks, and the names that break it (Jakarta CDI 4.0,
/// *Problems detected automatically by the container*). Of a name that isn't known it tells the group that it has to be of, and the
/// known name that was probably meant, if one is near; of a type that is its own supertype, the types of a cycle; of a point without
/// its one bean, what it asks for, and by the tables, if it is ambiguous, the beans that are left, and if it isn't satisfied, those
/// that nearly have what it asks for; of a body that is no script, its name, and the script that was probably meant, if one is near;
/// of a script that names something that isn't there, its first step with a name that isn't declared as what it has to be, if there
/// is one; of a bean that several enabled ones specialize, by the tables, these; of a dependent bean that needs itself, by the
/// tables, the beans of a cycle, if the points that these declare themselves make one. Of beans that are left or specialize one it
/// tells the first 16, of those that are near the first 5, and how many more there are. The one error is [`AllocError`], if a growth
/// was refused.
pub fn problem_message(
    alloc: Global,
    subject: &Subject<'_>,
    problem: &Problem,
) -> Result<String, AllocError>
    ensures { IfOk result (λ message.
        string_bytes message ≡ spec.problem_message (subject_of subject.now) problem.now) }
{
    let mut message = String::from_str(alloc, rule_text(problem.kind))?;
    add_element_details(alloc, subject, problem, &mut message)?;
    add_script_details(alloc, subject, problem, &mut message)?;
    add_bean_details(alloc, subject, problem, &mut message)?;
    Ok(message)
}

/// The hint for a problem of a deployment: the problem as it is printed, and what is told of it beyond that. The one error is
/// [`AllocError`], if a growth was refused.
pub fn problem_hint(
    alloc: Global,
    subject: &Subject<'_>,
    problem: &Problem,
) -> Result<Text, AllocError>
    ensures { IfOk result (λ hint.
        hint ≡ spec.problem_hint (subject_of subject.now) problem.now) }
{
    let names = &subject.deployment.names;
    let message = problem_message(alloc, subject, problem)?;
    let problem = ProblemText { names, problem };
    Ok(Text::new(format!(in alloc; "{problem}: {message}")?))
}
