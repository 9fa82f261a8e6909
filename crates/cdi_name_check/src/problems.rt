//! The problems of a deployment that are looked for before all others.
ghost use Rattle.std.specs.Prelude.{◌≡◌, ◌++◌, IfOk, OnOk};
ghost use Rattle.cdi_name_check.specs.NameProblems.{AreNameProblems};
ghost use Rattle.cdi_name_check.specs.NameSets.{HasDeclared};
ghost use Rattle.cdi_name_check.specs.CyclicHierarchy.{IsCyclicHierarchy};
ghost use Rattle.cdi_name_check.specs.UnknownName.{HasUnknownName};
ghost use Rattle.cdi_problems.specs.Elements.{elements_of as all_elements, shown};
ghost use Rattle.cdi_problems.specs.Findings.{ArePlacesOf};
ghost use Rattle.cdi_problems.specs.Words as words;
ghost use Rattle.cdi_types.specs.Declarations.{declarations_of};

use crate::cyclic_hierarchy::CyclicHierarchy;
use crate::duplicate_name::duplicate_places;
use crate::unknown_name::UnknownName;
use crate::unknown_name::declared::DeclaredNames;
use crate::unknown_name::name_sets::NameSets;
use cdi_base::{Place, Seq};
use cdi_deployment::Deployment;
use cdi_problems::{Element, Problem, ProblemKind, places_where};
use cdi_types::TypeGraph;
use std::alloc::{AllocError, Global};

/// Adds the problems of a kind at these places.
fn add_problems(
    kind: ProblemKind,
    places: &[Place],
    problems: &mut Seq<Problem>,
) -> Result<(), AllocError>
    ensures { OnOk result (problems.new ≡ problems.old ++ words.problems_at kind places.now) }
{
    for place in places {
        problems.push(Problem {
            kind,
            place: Some(*place),
        })?;
    }
    Ok(())
}

/// The places where an element has an unknown name.
fn unknown_places(
    alloc: Global,
    deployment: &Deployment,
    names: &NameSets,
    elements: &[Element<'_>],
) -> Result<Seq<Place>, AllocError>
    requires { HasDeclared deployment.now names.now }
    ensures { IfOk result
        (ArePlacesOf (HasUnknownName deployment.now) (shown elements.now)) }
{
    let names = DeclaredNames::new(deployment, names);
    places_where(alloc, &UnknownName { names: &names }, elements)
}

/// The places of the types that are their own proper supertypes.
fn cyclic_places(
    alloc: Global,
    deployment: &Deployment,
    elements: &[Element<'_>],
) -> Result<Seq<Place>, AllocError>
    ensures { IfOk result
        (ArePlacesOf (IsCyclicHierarchy (declarations_of deployment.now)) (shown elements.now)) }
{
    let types = TypeGraph::build(alloc, deployment)?;
    places_where(alloc, &CyclicHierarchy { types: &types }, elements)
}

/// The duplicate names of a deployment, then its unknown names, then its types that are their own proper supertypes: each where it
/// holds, in the order of the places, and once at a place (Jakarta CDI 4.0, *Problems detected automatically by the container*). These
/// are the names that it declares, and its elements.
pub fn name_problems(
    alloc: Global,
    deployment: &Deployment,
    names: &NameSets,
    elements: &[Element<'_>],
) -> Result<Seq<Problem>, AllocError>
    requires names { HasDeclared deployment.now names.now }
    requires elements { shown elements.now ≡ all_elements deployment.now }
    ensures { IfOk result (AreNameProblems deployment.now) }
{
    let duplicate = duplicate_places(alloc, elements)?;
    let unknown = unknown_places(alloc, deployment, names, elements)?;
    let cyclic = cyclic_places(alloc, deployment, elements)?;
    let mut problems = Seq::empty(alloc);
    add_problems(
        ProblemKind::DuplicateName,
        duplicate.as_slice(),
        &mut problems,
    )?;
    add_problems(ProblemKind::UnknownName, unknown.as_slice(), &mut problems)?;
    add_problems(
        ProblemKind::CyclicHierarchy,
        cyclic.as_slice(),
        &mut problems,
    )?;
    Ok(problems)
}
