//! The beans that are left for the ambiguous points at the place of a problem.
ghost use Rattle.std.specs.Prelude.{◌≡◌, ◌++◌, IfOk, OnOk};
ghost use Rattle.std.specs.List.{flat_map};
ghost use Rattle.cdi_problem_hints.specs.Left as spec;
ghost use Rattle.cdi_problem_hints.specs.Subjects.{subject_of};
ghost use Rattle.cdi_problems.specs.Elements.{element_of, shown};

use crate::asked::{Asked, asked_by};
use crate::at::elements_at;
use crate::specializer::specializers_at;
use crate::subject::Subject;
use cdi_base::{Place, Seq};
use cdi_candidates::candidates;
use cdi_problems::{Element, Problem, ProblemKind};
use cdi_resolve::BeanTables;
use std::alloc::{AllocError, Global};

fn add_places(left: &[Place], places: &mut Seq<Place>) -> Result<(), AllocError>
    ensures { OnOk result (places.new ≡ places.old ++ left.now) }
{
    for place in left {
        places.push(*place)?;
    }
    Ok(())
}

/// Adds some places, if they are several.
fn add_several(left: &[Place], places: &mut Seq<Place>) -> Result<(), AllocError>
    ensures { OnOk result (places.new ≡ places.old ++ spec.several left.now) }
{
    match left {
        [] | [_] => Ok(()),
        _ => add_places(left, places),
    }
}

/// Adds the places of the beans that are left for each of these points, if they are several.
fn add_left(
    alloc: Global,
    tables: &BeanTables,
    points: &[Asked<'_>],
    places: &mut Seq<Place>,
) -> Result<(), AllocError>
    ensures { OnOk result (places.new ≡ places.old ++ spec.several_left tables.now points.now) }
{
    for point in points {
        let left = candidates(alloc, tables, point.ty(), point.quals())?;
        add_several(left.as_slice(), places)?;
    }
    Ok(())
}

/// Adds those of the points of an element.
fn add_left_in(
    alloc: Global,
    tables: &BeanTables,
    element: &Element<'_>,
    places: &mut Seq<Place>,
) -> Result<(), AllocError>
    ensures { OnOk result (places.new
        ≡ places.old ++ spec.left_in tables.now (element_of element.now)) }
{
    let points = asked_by(alloc, element)?;
    add_left(alloc, tables, points.as_slice(), places)
}

fn left_in(
    alloc: Global,
    tables: &BeanTables,
    elements: &[Element<'_>],
) -> Result<Seq<Place>, AllocError>
    ensures { IfOk result (λ places. places
        ≡ flat_map (spec.left_in tables.now) (shown elements.now)) }
{
    let mut places = Seq::empty(alloc);
    for element in elements {
        add_left_in(alloc, tables, element, &mut places)?;
    }
    Ok(places)
}

fn places_left(
    alloc: Global,
    subject: &Subject<'_>,
    place: &Option<Place>,
) -> Result<Seq<Place>, AllocError>
    ensures { IfOk result (λ places. places ≡ spec.places_left
        (subject_of subject.now).deployment (subject_of subject.now).tables place.now) }
{
    match subject.tables {
        Some(tables) => {
            let elements = elements_at(subject, place);
            left_in(alloc, tables, elements)
        }
        None => Ok(Seq::empty(alloc)),
    }
}

/// The places of the beans that are left for each ambiguous point of the elements at the place of a problem, in order, by the tables
/// of the deployment (Jakarta CDI 4.0, *Unsatisfied and ambiguous dependencies*), if the problem is `Ambiguous`; and if it is
/// `InconsistentSpecialization`, those of the enabled beans that specialize the one at its place (Jakarta CDI 4.0, *Inconsistent
/// specialization*). There are none without tables, and none of other problems. The one error is [`AllocError`], if a growth was
/// refused.
pub fn problem_candidates(
    alloc: Global,
    subject: &Subject<'_>,
    problem: &Problem,
) -> Result<Seq<Place>, AllocError>
    ensures { IfOk result (λ places.
        places ≡ spec.problem_candidates (subject_of subject.now) problem.now) }
{
    match problem.kind {
        ProblemKind::Ambiguous => places_left(alloc, subject, &problem.place),
        ProblemKind::InconsistentSpecialization => {
            specializers_at(alloc, subject, &problem.place)
        }
        _ => Ok(Seq::empty(alloc)),
    }
}
