//! The tables of a deployment by which its points resolve.
ghost use Rattle.std.specs.Prelude.{IfOk, IsSomeAnd};
ghost use Rattle.cdi_beans.specs.Declarations.{AreDeclaredBy};
ghost use Rattle.cdi_beans.specs.Problems.{IsMadeOf};
ghost use Rattle.cdi_candidates.specs.Tables as spec;
ghost use Rattle.cdi_resolve.specs.BeanTables.{AreTablesOf};

use cdi_base::OrMemory;
use cdi_beans::ListedBeans;
use cdi_deployment::Deployment;
use cdi_resolve::BeanTables;
use std::alloc::{AllocError, Global};

fn some_tables(
    alloc: Global,
    deployment: &Deployment,
    beans: ListedBeans,
) -> Result<Option<BeanTables>, AllocError>
    requires list { IsMadeOf deployment.now beans.list }
    requires declared { AreDeclaredBy deployment.now beans.declared }
    ensures { IfOk result (λ tables. IsSomeAnd tables (AreTablesOf deployment.now)) }
{
    let ListedBeans {
        list,
        declared,
        names: _names,
    } = beans;
    Ok(Some(BeanTables::build(alloc, deployment, list, declared)?))
}

/// The tables of a deployment by which its points resolve; none if its names or its beans have problems (Jakarta CDI 4.0, *Problems
/// detected automatically by the container*).
pub fn tables_of(alloc: Global, deployment: &Deployment) -> Result<Option<BeanTables>, AllocError>
    ensures { IfOk result (spec.AreTables deployment.now) }
{
    match ListedBeans::build(alloc, deployment) {
        Ok(beans) => some_tables(alloc, deployment, beans),
        Err(OrMemory::Fault(_)) => Ok(None),
        Err(OrMemory::Memory) => Err(AllocError),
    }
}
