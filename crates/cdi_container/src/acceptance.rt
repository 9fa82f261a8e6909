//! Which deployments a container is started for.
ghost use Rattle.std.specs.Prelude.{◌≡◌, [], true, IfOk, IfErr};
ghost use Rattle.cdi_base.specs.declared.or_memory.OrMemory.TheVariants.{Fault};
ghost use Rattle.cdi_beans.specs.Declarations.{AreDeclaredBy};
ghost use Rattle.cdi_beans.specs.Problems.{IsMadeOf};
ghost use Rattle.cdi_bodies.specs.Table.{entries_of};
ghost use Rattle.cdi_body_check.specs.Shapes.{shape_of};
ghost use Rattle.cdi_check.specs.Late.{AreProblemsIn};
ghost use Rattle.cdi_check.specs.Tables.{setting_by};
ghost use Rattle.cdi_container.specs.Accepted as spec;
ghost use Rattle.cdi_container.specs.declared.acceptance.Unaccepted.TheVariants.{Problems};
ghost use Rattle.cdi_name_check.specs.NameSets.{HasDeclared};

use cdi_accepted::laws::{law_whole_fits, law_whole_is_registered};
use cdi_base::{Names, OrMemory, Seq};
use cdi_beans::ListedBeans;
use cdi_bodies::Bodies;
use cdi_check::late_problems;
use cdi_deployment::Deployment;
use cdi_problems::Problem;
use cdi_resolve::BeanTables;
use cdi_run_tables::RunTables;
use cdi_runtime::laws::law_drives_registered;
use std::alloc::Global;

/// Why a deployment isn't accepted.
#[derive(Drop)]
pub enum Unaccepted {
    /// It has these problems, whose names are those of the table.
    Problems {
        names: Names,
        problems: Seq<Problem>,
    },
    /// It has no problem, but it isn't as one that was read: an exception has no text, or a list is so long that a place in it has
    /// no number.
    Malformed,
}

/// A deployment has these problems.
fn refused(deployment: Deployment, problems: Seq<Problem>) -> OrMemory<Unaccepted>
    ensures { result ≡ Fault (Problems deployment.names problems) }
{
    OrMemory::Fault(Unaccepted::Problems {
        names: deployment.into_names(),
        problems,
    })
}

/// The tables of a deployment that has no problem with these bodies, if it is as one that was read.
fn formed(tables: RunTables, bodies: &Bodies) -> Result<RunTables, OrMemory<Unaccepted>>
    requires are { spec.AreTablesWith tables.deployment (entries_of bodies.now) tables }
    requires faultless { AreProblemsIn tables.deployment (shape_of (entries_of bodies.now))
        tables.tables.enabled (setting_by tables.deployment tables.tables) [] }
    ensures ok { IfOk result (spec.IsAccepted tables.deployment (entries_of bodies.now)) }
    ensures err { IfErr result (spec.IsUnaccepted tables.deployment (entries_of bodies.now)) }
{
    law_whole_fits(bodies);
    law_whole_is_registered(bodies);
    law_drives_registered(bodies);
    if tables.is_well_formed() {
        Ok(tables)
    } else {
        Err(OrMemory::Fault(Unaccepted::Malformed))
    }
}

/// Accepts a deployment with this bean list.
fn accept_listed(
    alloc: Global,
    deployment: Deployment,
    beans: ListedBeans,
    bodies: &Bodies,
) -> Result<RunTables, OrMemory<Unaccepted>>
    requires list { IsMadeOf deployment beans.list }
    requires declared { AreDeclaredBy deployment beans.declared }
    requires names { HasDeclared deployment beans.names }
    ensures ok { IfOk result (spec.IsAccepted deployment (entries_of bodies.now)) }
    ensures err { IfErr result (spec.IsUnaccepted deployment (entries_of bodies.now)) }
{
    let ListedBeans {
        list,
        declared,
        names,
    } = beans;
    let listed = BeanTables::build(alloc, &deployment, list, declared)?;
    let problems = late_problems(alloc, &deployment, &names, &listed, bodies)?;
    if !problems.is_empty() {
        return Err(refused(deployment, problems));
    }
    let tables = RunTables::build(alloc, deployment, names, listed, bodies)?;
    formed(tables, bodies)
}

/// Accepts a deployment with these bodies if it has no problem (Jakarta CDI 4.0, *Problems detected automatically by the
/// container*): each body that can come to run is registered then, and what the bodies name is there. Its tables come back. Otherwise
/// its problems come back, with the deployment's names; or that memory ran out; or that the deployment is malformed, which none is that
/// was read.
pub fn accept(
    alloc: Global,
    deployment: Deployment,
    bodies: &Bodies,
) -> Result<RunTables, OrMemory<Unaccepted>>
    ensures ok { IfOk result (spec.IsAccepted deployment (entries_of bodies.now)) }
    ensures err { IfErr result (spec.IsUnaccepted deployment (entries_of bodies.now)) }
{
    match ListedBeans::build(alloc, &deployment) {
        Ok(beans) => accept_listed(alloc, deployment, beans, bodies),
        Err(OrMemory::Fault(problems)) => Err(refused(deployment, problems)),
        Err(OrMemory::Memory) => Err(OrMemory::Memory),
    }
}
