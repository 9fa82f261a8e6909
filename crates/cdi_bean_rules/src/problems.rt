//! All problems of beans, in their order.
ghost use Rattle.std.specs.Prelude.{◌≡◌, ◌++◌, [], IfOk, OnOk};
ghost use Rattle.cdi_problems.specs.Elements.{elements_of as all_elements, shown};
ghost use Rattle.cdi_problems.specs.Words.{problems_at};
ghost use Rattle.cdi_types.specs.Declarations.{declarations_of};
ghost use Rattle.cdi_bean_check.specs.BeanTypes.{HasSpecializedTypeLost};
ghost use Rattle.cdi_bean_check.specs.ManagedBeans.{bean_names, SpecializesNothing as HasNothing};
ghost use Rattle.cdi_bean_rules.specs.Observers.{IsConditionalDependent};
ghost use Rattle.cdi_bean_check.specs.Repeated.{RepeatsSuperclass as Repeats};
ghost use Rattle.cdi_bean_rules.specs.Tiers.{AddsProblems, AddsExcess, AreBeanProblems};

use crate::conditional::{ConditionalDependent, conditional_of_dependent};
use crate::disposers::{TwoDisposers, UnmatchedDisposer};
use crate::limits::has_too_many;
use crate::tables::RuleTables;
use cdi_base::{Place, Seq};
use cdi_bean_check::abstract_bean::AbstractBean;
use cdi_bean_check::bean_classes::BeanClasses;
use cdi_bean_check::bean_names::BeanNames;
use cdi_bean_check::bindings::TwoBindingsOfOneType;
use cdi_bean_check::lost_types::SpecializedTypeLost;
use cdi_bean_check::repeated::{RepeatsSuperclass, repeated_of_superclasses};
use cdi_bean_check::specialization::SpecializesNothing;
use cdi_bean_check::typed::TypedNotAType;
use cdi_deployment::{Class, Deployment};
use cdi_problems::{Element, Problem, ProblemKind, Rule, add_problems_at, places_where};
use cdi_types::{ClassIndex, TypeTable};
use std::alloc::{AllocError, Global};

/// Adds the problems of a kind where its rule holds.
fn add_found<R: Rule>(
    alloc: Global,
    kind: ProblemKind,
    rule: &R,
    elements: &[Element<'_>],
    problems: &mut Seq<Problem>,
) -> Result<(), AllocError>
    ensures { OnOk result
        (AddsProblems (R.holds_at rule.now) (shown elements.now) kind problems.old problems.new) }
{
    let places = places_where(alloc, rule, elements)?;
    add_problems_at(kind, places.as_slice(), problems)
}

fn add_repeated(
    alloc: Global,
    classes: &[Class],
    index: &ClassIndex<'_>,
    types: &TypeTable,
    elements: &[Element<'_>],
    problems: &mut Seq<Problem>,
) -> Result<(), AllocError>
    requires { index.now ≡ classes.now }
    ensures { OnOk result (AddsProblems (Repeats classes.now types.now) (shown elements.now)
        ProblemKind.DuplicateName problems.old problems.new) }
{
    let places = repeated_of_superclasses(alloc, classes, index, types)?;
    let rule = RepeatsSuperclass { places: &places };
    add_found(alloc, ProblemKind::DuplicateName, &rule, elements, problems)
}

fn add_specializing(
    alloc: Global,
    classes: &[Class],
    elements: &[Element<'_>],
    problems: &mut Seq<Problem>,
) -> Result<(), AllocError>
    ensures { OnOk result (AddsProblems (HasNothing (bean_names classes.now)) (shown elements.now)
        ProblemKind.SpecializesNothing problems.old problems.new) }
{
    let beans = BeanNames::build(alloc, classes)?;
    let rule = SpecializesNothing { beans: &beans };
    add_found(
        alloc,
        ProblemKind::SpecializesNothing,
        &rule,
        elements,
        problems,
    )
}

fn add_losing(
    alloc: Global,
    beans: &BeanClasses<'_>,
    types: &TypeTable,
    elements: &[Element<'_>],
    problems: &mut Seq<Problem>,
) -> Result<(), AllocError>
    ensures { OnOk result (AddsProblems (HasSpecializedTypeLost beans.now types.now)
        (shown elements.now) ProblemKind.SpecializedTypeLost problems.old problems.new) }
{
    let rule = SpecializedTypeLost { beans, types };
    add_found(
        alloc,
        ProblemKind::SpecializedTypeLost,
        &rule,
        elements,
        problems,
    )
}

fn add_conditional(
    alloc: Global,
    classes: &[Class],
    index: &ClassIndex<'_>,
    types: &TypeTable,
    elements: &[Element<'_>],
    problems: &mut Seq<Problem>,
) -> Result<(), AllocError>
    requires { index.now ≡ classes.now }
    ensures { OnOk result (AddsProblems (IsConditionalDependent classes.now types.now)
        (shown elements.now) ProblemKind.ConditionalDependent problems.old problems.new) }
{
    let places = conditional_of_dependent(alloc, classes, index, types)?;
    let rule = ConditionalDependent { places: &places };
    add_found(
        alloc,
        ProblemKind::ConditionalDependent,
        &rule,
        elements,
        problems,
    )
}

/// Adds that there are too many beans or observers, if there are.
fn add_excess(
    alloc: Global,
    deployment: &Deployment,
    index: &ClassIndex<'_>,
    types: &TypeTable,
    problems: &mut Seq<Problem>,
) -> Result<(), AllocError>
    requires classes { index.now ≡ deployment.now.classes }
    requires types { types.now ≡ declarations_of deployment.now }
    ensures { OnOk result (AddsExcess deployment.now problems.old problems.new) }
{
    let too_many = has_too_many(alloc, deployment, index, types)?;
    if too_many {
        problems.push(Problem {
            kind: ProblemKind::TooMany,
            place: None,
        })?;
    }
    Ok(())
}

/// Adds all problems of the elements, where there were none.
fn add_all(
    alloc: Global,
    tables: &RuleTables<'_>,
    problems: &mut Seq<Problem>,
) -> Result<(), AllocError>
    requires all { shown tables.now.elements.now ≡ all_elements tables.now.deployment.now }
    requires none { problems.old ≡ [] }
    ensures { OnOk result (AreBeanProblems
        tables.now.deployment.now tables.now.qualifiers.now problems.new) }
{
    let RuleTables {
        deployment,
        elements,
        types,
        qualifiers,
        classes: index,
        beans,
        ..
    } = *tables;
    let classes = deployment.classes.as_slice();
    let typed = TypedNotAType { types };
    let unmatched = UnmatchedDisposer { types, qualifiers };
    let two = TwoDisposers { types, qualifiers };
    let bound = TwoBindingsOfOneType;
    add_repeated(alloc, classes, index, types, elements, problems)?;
    add_found(
        alloc,
        ProblemKind::AbstractBean,
        &AbstractBean,
        elements,
        problems,
    )?;
    add_found(
        alloc,
        ProblemKind::TypedNotAType,
        &typed,
        elements,
        problems,
    )?;
    add_specializing(alloc, classes, elements, problems)?;
    add_losing(alloc, beans, types, elements, problems)?;
    add_found(
        alloc,
        ProblemKind::UnmatchedDisposer,
        &unmatched,
        elements,
        problems,
    )?;
    add_found(alloc, ProblemKind::TwoDisposers, &two, elements, problems)?;
    add_conditional(alloc, classes, index, types, elements, problems)?;
    add_found(
        alloc,
        ProblemKind::TwoBindingsOfOneType,
        &bound,
        elements,
        problems,
    )?;
    add_excess(alloc, deployment, index, types, problems)
}

/// The problems of beans, in a deployment in which all names are known and no type is its own supertype (Jakarta CDI 4.0, *Problems
/// detected automatically by the container*): by their numbers, and those of a number in the order of the places. The tables have its
/// elements.
pub fn bean_problems(alloc: Global, tables: &RuleTables<'_>) -> Result<Seq<Problem>, AllocError>
    requires { shown tables.now.elements.now ≡ all_elements tables.now.deployment.now }
    ensures { IfOk result (AreBeanProblems
        tables.now.deployment.now tables.now.qualifiers.now) }
{
    let mut problems = Seq::empty(alloc);
    add_all(alloc, tables, &mut problems)?;
    Ok(problems)
}
