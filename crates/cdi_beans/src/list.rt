//! The bean list of a deployment.
ghost use Rattle.std.specs.Prelude.{◌≡◌, IfOk};
ghost use Rattle.cdi_beans.specs.BeanLists.{IsBeanListOf};

use crate::bean::BeanList;
use crate::beans::beans_of;
use crate::disposers::disposers_of;
use crate::interceptors::interceptors_of;
use crate::observers::observers_of;
use crate::tables::Tables;
use cdi_base::{Name, Seq};
use cdi_bean_rules::RuleTables;
use cdi_quals::QualifierTypes;
use std::alloc::{AllocError, Global};

fn copy_of(alloc: Global, names: &[Name]) -> Result<Seq<Name>, AllocError>
    ensures { IfOk result (λ copy. copy ≡ names.now) }
{
    Ok(Seq::new(Vec::from_slice(alloc, names)?))
}

/// The beans of a deployment, and what belongs to them, by the tables that the rules of beans look at and the types of its interceptor
/// bindings (Jakarta CDI 4.0, *Beans*). Of classes with one name the first counts where a name is looked up: among all
/// classes for what a class inherits, and among those that are beans for what it specializes.
pub fn list_beans(
    alloc: Global,
    tables: &RuleTables<'_>,
    bindings: &QualifierTypes,
) -> Result<BeanList, AllocError>
    ensures { IfOk result (IsBeanListOf
        tables.now.deployment.now tables.now.qualifiers.now bindings.now) }
{
    let deployment = tables.deployment;
    let tables = Tables::of(tables);
    let beans = beans_of(alloc, &tables)?;
    let selected = copy_of(alloc, deployment.selected.as_slice())?;
    let interceptors = interceptors_of(alloc, deployment, bindings)?;
    let observers = observers_of(alloc, &tables)?;
    let disposers = disposers_of(alloc, &tables)?;
    Ok(BeanList {
        beans,
        selected,
        interceptors,
        observers,
        disposers,
    })
}
