//! The last tier of problems, by the tables that its bean list gives.
ghost use Rattle.std.specs.Prelude.{◌≡◌, IfOk};
ghost use Rattle.cdi_bodies.specs.Table.{entries_of};
ghost use Rattle.cdi_body_check.specs.Shapes.{shape_of};
ghost use Rattle.cdi_check.specs.Late.{AreProblemsIn};
ghost use Rattle.cdi_check.specs.Tables.{setting_by};
ghost use Rattle.cdi_name_check.specs.NameSets.{HasDeclared};
ghost use Rattle.cdi_types.specs.Declarations.{declarations_of};

use crate::late::all_problems;
use cdi_base::Seq;
use cdi_bodies::Bodies;
use cdi_body_check::{BodyTables, DeclaredExceptions};
use cdi_deployment::Deployment;
use cdi_live::{DeploymentTables, LiveTables, ResolvedPoints};
use cdi_name_check::{DeclaredNames, NameSets};
use cdi_problems::{Problem, elements_of as all_elements};
use cdi_resolve::BeanTables;
use cdi_types::ClassIndex;
use std::alloc::{AllocError, Global};

/// The last tier of problems, by these names and tables and by what is live.
fn problems_where_live<'a>(
    alloc: Global,
    deployment: &'a Deployment,
    names: &'a NameSets,
    beans: &'a BeanTables,
    bodies: &Bodies,
    live: &'a LiveTables<'_>,
) -> Result<Seq<Problem>, AllocError>
    requires names { HasDeclared deployment.now names.now }
    requires types { beans.now.declared.types ≡ declarations_of deployment.now }
    requires live { live.now ≡ (setting_by deployment.now beans.now).enabled }
    ensures { IfOk result (AreProblemsIn deployment.now (shape_of (entries_of bodies.now))
        beans.now.enabled (setting_by deployment.now beans.now)) }
{
    let names = DeclaredNames::new(deployment, names);
    let classes = ClassIndex::build(alloc, deployment.classes.as_slice())?;
    let exceptions = DeclaredExceptions::build(alloc, deployment.exceptions.as_slice())?;
    let elements = all_elements(alloc, deployment)?;
    let qualifiers = &beans.declared.qualifiers;
    let points = ResolvedPoints::build(alloc, qualifiers, &beans.resolver, elements.as_slice())?;
    let application = DeploymentTables {
        deployment,
        names: &names,
        classes: &classes,
        beans,
        live,
        points: &points,
    };
    let tables = BodyTables {
        application: &application,
        exceptions: &exceptions,
        bodies,
    };
    let problems = all_problems(alloc, &tables, elements.as_slice())?;
    Ok(problems)
}

/// What is live by these tables.
fn live_of<'a>(
    alloc: Global,
    deployment: &'a Deployment,
    tables: &'a BeanTables,
) -> Result<LiveTables<'a>, AllocError>
    requires { tables.now.declared.types ≡ declarations_of deployment.now }
    ensures { IfOk result (λ live.
        live ≡ (setting_by deployment.now tables.now).enabled) }
{
    LiveTables::build(
        alloc,
        &tables.declared.types,
        deployment.classes.as_slice(),
        tables.resolver.beans(),
        tables.resolver.flags(),
        tables.chains.interceptors(),
    )
}

/// The last tier of problems, by these names and tables.
pub(crate) fn problems_by(
    alloc: Global,
    deployment: &Deployment,
    names: &NameSets,
    tables: &BeanTables,
    bodies: &Bodies,
) -> Result<Seq<Problem>, AllocError>
    requires names { HasDeclared deployment.now names.now }
    requires types { tables.now.declared.types ≡ declarations_of deployment.now }
    ensures { IfOk result (AreProblemsIn deployment.now (shape_of (entries_of bodies.now))
        tables.now.enabled (setting_by deployment.now tables.now)) }
{
    let live = live_of(alloc, deployment, tables)?;
    problems_where_live(alloc, deployment, names, tables, bodies, &live)
}
