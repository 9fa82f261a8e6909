//! The first list of a deployment that is longer than its limit.
ghost use Rattle.std.specs.Prelude.{◌≡◌, ◌+◌, length, IfOk};
ghost use Rattle.cdi_prepare.specs.LongList as spec;
ghost use Rattle.cdi_prepare.specs.LongList.{Tells};

use crate::hint::Mistake;
use crate::item_lists::{check_items, check_length};
use cdi_base::OrMemory;
use cdi_deployment::Deployment;
use cdi_deployment::limits::{MAX_DECLARED, MAX_SCRIPTS, MAX_TYPES};
use std::alloc::{AllocError, Global};

/// The JSON Pointer (RFC 6901) to a deployment.
const ROOT: &str = "";

/// How many types a deployment has: interfaces and interceptors count with the classes.
fn count_types(deployment: &Deployment) -> usize
    ensures { result ≡ length deployment.now.interfaces + length deployment.now.classes
        + length deployment.now.interceptors }
{
    deployment.interfaces.as_slice().len()
        + deployment.classes.as_slice().len()
        + deployment.interceptors.as_slice().len()
}

/// Checks the lists of a deployment itself.
fn check_deployment(alloc: Global, deployment: &Deployment) -> Result<(), OrMemory<Mistake>>
    ensures { Tells (spec.list_of_deployment deployment.now) result }
{
    let declared = MAX_DECLARED;
    check_length(alloc, ROOT, "classes", count_types(deployment), MAX_TYPES)?;
    check_length(
        alloc,
        ROOT,
        "scripts",
        deployment.scripts.len(),
        MAX_SCRIPTS,
    )?;
    check_length(
        alloc,
        ROOT,
        "qualifiers",
        deployment.qualifiers.len(),
        declared,
    )?;
    check_length(alloc, ROOT, "bindings", deployment.bindings.len(), declared)?;
    check_length(
        alloc,
        ROOT,
        "exceptions",
        deployment.exceptions.len(),
        declared,
    )?;
    check_length(alloc, ROOT, "selected", deployment.selected.len(), declared)?;
    check_length(alloc, ROOT, "order", deployment.order.len(), declared)?;
    Ok(())
}

/// Checks the lists of the items of a deployment.
fn check_all_items(alloc: Global, deployment: &Deployment) -> Result<(), OrMemory<Mistake>>
    ensures { Tells (spec.list_of_items deployment.now) result }
{
    check_items(alloc, ROOT, "classes", deployment.classes.as_slice())?;
    check_items(alloc, ROOT, "interfaces", deployment.interfaces.as_slice())?;
    check_items(alloc, ROOT, "qualifiers", deployment.qualifiers.as_slice())?;
    check_items(alloc, ROOT, "bindings", deployment.bindings.as_slice())?;
    check_items(
        alloc,
        ROOT,
        "interceptors",
        deployment.interceptors.as_slice(),
    )?;
    Ok(())
}

/// Checks all lists of a deployment.
fn check(alloc: Global, deployment: &Deployment) -> Result<(), OrMemory<Mistake>>
    ensures { Tells (spec.first_long_list deployment.now) result }
{
    check_deployment(alloc, deployment)?;
    check_all_items(alloc, deployment)?;
    Ok(())
}

/// The first list of a deployment that is longer than its limit, if there is one.
pub(crate) fn first_long_list(
    alloc: Global,
    deployment: &Deployment,
) -> Result<Option<Mistake>, AllocError>
    ensures { IfOk result (λ m. m ≡ spec.first_long_list deployment.now) }
{
    match check(alloc, deployment) {
        Ok(()) => Ok(None),
        Err(OrMemory::Fault(mistake)) => Ok(Some(mistake)),
        Err(OrMemory::Memory) => Err(AllocError),
    }
}
