//! The last tier of problems.
ghost use Rattle.std.specs.Prelude.{◌≡◌, ◌++◌, IfOk, OnOk};
ghost use Rattle.cdi_bodies.specs.Table.{entries_of};
ghost use Rattle.cdi_body_check.specs.Shapes.{shape_of};
ghost use Rattle.cdi_body_check.specs.Sites.{sites_of, shown as shown_sites};
ghost use Rattle.cdi_live.specs.PointProblems.{HasPointProblem};
ghost use Rattle.cdi_problems.specs.Elements.{elements_of, shown};
ghost use Rattle.cdi_problems.specs.Findings.{ArePlacesOf};
ghost use Rattle.cdi_problems.specs.Words.{problems_at};
ghost use Rattle.cdi_check.specs.Late as spec;
ghost use Rattle.cdi_live.specs.Settings.{setting_of};

use crate::bean_rules::{FinalIntercepted, InconsistentSpecialization};
use cdi_base::{Place, Seq};
use cdi_body_check::{
    BodySite, BodyTables, checked_lifecycles, proceeds_not_allowed, sites_of as all_sites,
    unknown_bodies,
};
use cdi_live::{DeploymentTables, PointProblem, PointRule, dependent_cycles};
use cdi_problems::{Element, Problem, ProblemKind, add_problems_at, places_where};
use cdi_shape_check::bodies_outside_shape;
use std::alloc::{AllocError, Global};

/// Where the shape of a live body names something that isn't there.
fn outside_shape(alloc: Global, tables: &BodyTables<'_>) -> Result<Seq<Place>, AllocError>
    ensures { IfOk result (spec.AreOutsideShape tables.now.application.now.deployment.now
        (shape_of (entries_of tables.now.bodies.now))
        (setting_of tables.now.application.now)) }
{
    let places = bodies_outside_shape(alloc, tables)?;
    Ok(places)
}

/// Adds the problems of bodies.
fn add_of_bodies(
    alloc: Global,
    tables: &BodyTables<'_>,
    sites: &[BodySite<'_>],
    problems: &mut Seq<Problem>,
) -> Result<(), AllocError>
    requires { shown_sites sites.now ≡ sites_of tables.now.application.now.deployment.now }
    ensures { OnOk result (spec.AddsBodyProblems tables.now.application.now.deployment.now
        (shape_of (entries_of tables.now.bodies.now)) (setting_of tables.now.application.now)
        problems.old problems.new) }
{
    let unknown = unknown_bodies(alloc, tables, sites)?;
    add_problems_at(ProblemKind::UnknownBody, unknown.as_slice(), problems)?;
    let outside = outside_shape(alloc, tables)?;
    add_problems_at(ProblemKind::BodyOutsideShape, outside.as_slice(), problems)?;
    let proceeding = proceeds_not_allowed(alloc, tables, sites)?;
    add_problems_at(
        ProblemKind::ProceedNotAllowed,
        proceeding.as_slice(),
        problems,
    )?;
    let checked = checked_lifecycles(alloc, tables, sites)?;
    add_problems_at(ProblemKind::CheckedLifecycle, checked.as_slice(), problems)?;
    Ok(())
}

/// Where live injection points have a problem.
fn point_places(
    alloc: Global,
    tables: &DeploymentTables<'_>,
    problem: PointProblem,
    elements: &[Element<'_>],
) -> Result<Seq<Place>, AllocError>
    requires { shown elements.now ≡ elements_of tables.now.deployment.now }
    ensures { IfOk result (spec.ArePointPlaces problem tables.now.deployment.now
        (setting_of tables.now)) }
{
    let rule = PointRule { problem, tables };
    let places = places_where(alloc, &rule, elements)?;
    Ok(places)
}

/// Adds the problems of injection points.
fn add_of_points(
    alloc: Global,
    tables: &DeploymentTables<'_>,
    elements: &[Element<'_>],
    problems: &mut Seq<Problem>,
) -> Result<(), AllocError>
    requires { shown elements.now ≡ elements_of tables.now.deployment.now }
    ensures { OnOk result (spec.AddsPointProblems tables.now.deployment.now
        (setting_of tables.now) problems.old problems.new) }
{
    let unsatisfied = point_places(alloc, tables, PointProblem::Unsatisfied, elements)?;
    add_problems_at(ProblemKind::Unsatisfied, unsatisfied.as_slice(), problems)?;
    let ambiguous = point_places(alloc, tables, PointProblem::Ambiguous, elements)?;
    add_problems_at(ProblemKind::Ambiguous, ambiguous.as_slice(), problems)?;
    let unproxyable = point_places(alloc, tables, PointProblem::Unproxyable, elements)?;
    add_problems_at(ProblemKind::Unproxyable, unproxyable.as_slice(), problems)?;
    Ok(())
}

/// Adds the problems of enabled beans and interceptors.
fn add_of_enabled(
    alloc: Global,
    tables: &DeploymentTables<'_>,
    elements: &[Element<'_>],
    problems: &mut Seq<Problem>,
) -> Result<(), AllocError>
    requires { shown elements.now ≡ elements_of tables.now.deployment.now }
    ensures { OnOk result (spec.AddsEnabledProblems tables.now.deployment.now
        tables.now.beans.now.enabled (setting_of tables.now) problems.old problems.new) }
{
    let specialized = InconsistentSpecialization {
        enabled: &tables.beans.enabled,
    };
    let inconsistent = places_where(alloc, &specialized, elements)?;
    add_problems_at(
        ProblemKind::InconsistentSpecialization,
        inconsistent.as_slice(),
        problems,
    )?;
    let cyclic = dependent_cycles(alloc, tables, elements)?;
    add_problems_at(ProblemKind::DependentCycle, cyclic.as_slice(), problems)?;
    let intercepted = FinalIntercepted {
        live: tables.live,
        chains: &tables.beans.chains,
    };
    let finals = places_where(alloc, &intercepted, elements)?;
    add_problems_at(ProblemKind::FinalIntercepted, finals.as_slice(), problems)?;
    Ok(())
}

/// All problems of the last tier, by the elements of the deployment.
pub(crate) fn all_problems(
    alloc: Global,
    tables: &BodyTables<'_>,
    elements: &[Element<'_>],
) -> Result<Seq<Problem>, AllocError>
    requires { shown elements.now ≡ elements_of tables.now.application.now.deployment.now }
    ensures { IfOk result (spec.AreProblemsIn tables.now.application.now.deployment.now
        (shape_of (entries_of tables.now.bodies.now))
        tables.now.application.now.beans.now.enabled
        (setting_of tables.now.application.now)) }
{
    let application = tables.application;
    let sites = all_sites(alloc, application.deployment)?;
    let mut problems = Seq::empty(alloc);
    add_of_bodies(alloc, tables, sites.as_slice(), &mut problems)?;
    add_of_points(alloc, application, elements, &mut problems)?;
    add_of_enabled(alloc, application, elements, &mut problems)?;
    Ok(problems)
}
