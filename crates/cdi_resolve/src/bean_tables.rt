//! The tables that a bean list gives.
ghost use Rattle.std.specs.Prelude.{◌≡◌, [], IfOk};
ghost use Rattle.cdi_beans.specs.Declarations.{AreDeclaredBy};
ghost use Rattle.cdi_beans.specs.Problems.{IsMadeOf};
ghost use Rattle.cdi_enable.specs.Enablement.{AreFlags, enablement_of};
ghost use Rattle.cdi_resolve.specs.BeanTables as spec;

use crate::resolver::Resolver;
use cdi_base::Seq;
use cdi_beans::{BeanList, DeclaredTables, DisposerMethod, ObserverMethod};
use cdi_deployment::Deployment;
use cdi_enable::laws::law_forest;
use cdi_enable::{EnabledSet, enabled};
use cdi_plans::Chains;
use std::alloc::{AllocError, Global};
use std::mem;

/// Which beans of a list are enabled, as a set and as a flag for each.
#[derive(Drop)]
struct EnabledBeans {
    set: EnabledSet,
    flags: Seq<bool>,
}

/// What is made from a deployment and its bean list.
pub struct BeanTables {
    pub declared: DeclaredTables,
    pub enabled: EnabledSet,
    pub resolver: Resolver,
    pub chains: Chains,
    /// The observers of all beans, enabled or not.
    pub observers: Seq<ObserverMethod>,
    pub disposers: Seq<DisposerMethod>,
}

/// In one call, so that the proof of each function that owns these tables has one step here, and not one for each of its parts.
impl Drop for BeanTables {
    fn drop(self) {
        let Self {
            declared: _declared,
            enabled: _enabled,
            resolver: _resolver,
            chains: _chains,
            observers: _observers,
            disposers: _disposers,
        } = self;
    }
}

/// Which beans of a deployment's list are enabled.
fn enabled_beans(
    alloc: Global,
    deployment: &Deployment,
    list: &BeanList,
) -> Result<EnabledBeans, AllocError>
    requires { IsMadeOf deployment.now list.now }
    ensures set { IfOk result (λ beans. beans.set ≡ enablement_of list.now) }
    ensures flags { IfOk result (λ beans. AreFlags (enablement_of list.now) beans.flags) }
{
    law_forest();
    let set = enabled(alloc, list)?;
    let flags = set.flags(alloc)?;
    Ok(EnabledBeans { set, flags })
}

/// The tables of a deployment with its bean list.
fn tables_with(
    alloc: Global,
    deployment: &Deployment,
    mut list: BeanList,
    declared: DeclaredTables,
    enabled: EnabledBeans,
) -> Result<BeanTables, AllocError>
    ensures { IfOk result (λ tables. tables
        ≡ spec.bean_tables deployment.now list declared enabled.set enabled.flags) }
{
    let interceptors = mem::replace(&mut list.interceptors, Seq::empty(alloc));
    let chains = Chains::build(alloc, deployment, &declared.bindings, interceptors)?;
    let beans = mem::replace(&mut list.beans, Seq::empty(alloc));
    let observers = mem::replace(&mut list.observers, Seq::empty(alloc));
    let disposers = mem::replace(&mut list.disposers, Seq::empty(alloc));
    let resolver = Resolver::new(alloc, beans, enabled.flags)?;
    Ok(BeanTables {
        declared,
        enabled: enabled.set,
        resolver,
        chains,
        observers,
        disposers,
    })
}

impl BeanTables {
    /// The tables of a deployment with its bean list and the tables of what it declares.
    pub fn build(
        alloc: Global,
        deployment: &Deployment,
        list: BeanList,
        declared: DeclaredTables,
    ) -> Result<BeanTables, AllocError>
        requires list { IsMadeOf deployment.now list }
        requires declared { AreDeclaredBy deployment.now declared }
        ensures { IfOk result (spec.AreBeanTables deployment.now list) }
    {
        let enabled = enabled_beans(alloc, deployment, &list)?;
        tables_with(alloc, deployment, list, declared, enabled)
    }
}
