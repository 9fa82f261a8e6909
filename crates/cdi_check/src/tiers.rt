//! All problems of a deployment with its registered bodies.
ghost use Rattle.std.specs.Prelude.{IfOk};
ghost use Rattle.cdi_beans.specs.Declarations.{AreDeclaredBy};
ghost use Rattle.cdi_beans.specs.Problems.{IsMadeOf};
ghost use Rattle.cdi_bodies.specs.Table.{entries_of};
ghost use Rattle.cdi_body_check.specs.Shapes.{shape_of};
ghost use Rattle.cdi_check.specs.Late.{AreLateProblems, AreProblemsIn};
ghost use Rattle.cdi_check.specs.Problems.{AreProblemsOf};
ghost use Rattle.cdi_check.specs.Tables.{setting_by};
ghost use Rattle.cdi_name_check.specs.NameSets.{HasDeclared};
ghost use Rattle.cdi_resolve.specs.BeanTables.{AreTablesOf};

use crate::settings::problems_by;
use cdi_base::{OrMemory, Seq};
use cdi_beans::ListedBeans;
use cdi_bodies::Bodies;
use cdi_deployment::Deployment;
use cdi_name_check::NameSets;
use cdi_problems::Problem;
use cdi_resolve::BeanTables;
use std::alloc::{AllocError, Global};

/// The last tier of problems of a deployment whose names and beans have none, by the names that it declares and its tables: those that
/// look at what is enabled. They stand by their numbers, and those of a number in the order of the places.
pub fn late_problems(
    alloc: Global,
    deployment: &Deployment,
    names: &NameSets,
    tables: &BeanTables,
    bodies: &Bodies,
) -> Result<Seq<Problem>, AllocError>
    requires names { HasDeclared deployment.now names.now }
    requires tables { AreTablesOf deployment.now tables.now }
    ensures late { IfOk result
        (AreLateProblems deployment.now (shape_of (entries_of bodies.now))) }
    ensures by_tables { IfOk result (AreProblemsIn deployment.now
        (shape_of (entries_of bodies.now)) tables.now.enabled
        (setting_by deployment.now tables.now)) }
{
    let problems = problems_by(alloc, deployment, names, tables, bodies)?;
    Ok(problems)
}

/// The problems of a deployment with this bean list.
fn problems_with(
    alloc: Global,
    deployment: &Deployment,
    beans: ListedBeans,
    bodies: &Bodies,
) -> Result<Seq<Problem>, AllocError>
    requires list { IsMadeOf deployment.now beans.list }
    requires declared { AreDeclaredBy deployment.now beans.declared }
    requires names { HasDeclared deployment.now beans.names }
    ensures { IfOk result
        (AreLateProblems deployment.now (shape_of (entries_of bodies.now))) }
{
    let ListedBeans {
        list,
        declared,
        names,
    } = beans;
    let tables = BeanTables::build(alloc, deployment, list, declared)?;
    late_problems(alloc, deployment, &names, &tables, bodies)
}

/// The problems of a deployment with its registered bodies (Jakarta CDI 4.0, *Problems detected automatically by the container*): those
/// of names or, if there are none, those of beans and, if there are none of either, those of the last tier, which looks at what is
/// enabled. They stand by their numbers, and those of a number in the order of the places. A deployment is accepted if there is none.
pub fn check(
    alloc: Global,
    deployment: &Deployment,
    bodies: &Bodies,
) -> Result<Seq<Problem>, AllocError>
    ensures { IfOk result
        (AreProblemsOf deployment.now (shape_of (entries_of bodies.now))) }
{
    match ListedBeans::build(alloc, deployment) {
        Ok(beans) => problems_with(alloc, deployment, beans, bodies),
        Err(OrMemory::Fault(problems)) => Ok(problems),
        Err(OrMemory::Memory) => Err(AllocError),
    }
}
