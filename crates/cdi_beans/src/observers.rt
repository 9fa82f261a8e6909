//! The observers of beans.
ghost use Rattle.std.specs.Prelude.{◌≡◌, [], ◌∷◌, filter, IfOk, OnOk};
ghost use Rattle.std.specs.List.{filter_map};
ghost use Rattle.cdi_bean_check.specs.ManagedBeans.{is_bean};
ghost use Rattle.cdi_beans.specs.Adds.{Adds};
ghost use Rattle.cdi_beans.specs.ObserverMethods as spec;

use crate::bean::ObserverMethod;
use crate::tables::Tables;
use cdi_base::Seq;
use cdi_deployment::{Class, Member, Observer};
use cdi_types::ClassPart;
use std::alloc::{AllocError, Global};

/// The priority of an observer that declares none (Jakarta CDI 4.0, *Observer ordering*).
const DEFAULT_PRIORITY: i64 = 2_500;

fn priority_of(observer: &Observer) -> i64
    ensures { result ≡ spec.observer_priority observer.now }
{
    match observer.priority {
        Some(priority) => priority,
        None => DEFAULT_PRIORITY,
    }
}

fn observer_method(
    alloc: Global,
    tables: &Tables<'_>,
    bean: &Class,
    class: &Class,
    observer: &Observer,
) -> Result<ObserverMethod, AllocError>
    ensures { IfOk result (λ method. spec.IsObserverOf tables.now.deployment.now
        tables.now.qualifiers.now bean.now (class.now, observer.now) method) }
{
    Ok(ObserverMethod {
        bean: bean.name,
        class: class.name,
        name: observer.name,
        ty: observer.ty,
        qualifiers: tables.set_of(alloc, observer.quals.as_slice())?,
        priority: priority_of(observer),
        if_exists: observer.if_exists,
    })
}

/// Adds a member that a bean has, if it is an observer.
fn add_observer(
    alloc: Global,
    tables: &Tables<'_>,
    bean: &Class,
    member: &ClassPart<'_, Member>,
    observers: &mut Seq<ObserverMethod>,
) -> Result<(), AllocError>
    ensures { OnOk result
        (Adds (spec.IsObserverOf tables.now.deployment.now tables.now.qualifiers.now bean.now)
        (filter_map spec.observer (member.now ∷ [])) observers.old observers.new) }
{
    match member.part {
        Member::Observer(observer) => {
            let method = observer_method(alloc, tables, bean, member.class, observer)?;
            observers.push(method)?;
            Ok(())
        }
        _ => Ok(()),
    }
}

/// Adds the observers among the members that a bean has.
fn add_observers(
    alloc: Global,
    tables: &Tables<'_>,
    bean: &Class,
    members: &[ClassPart<'_, Member>],
    observers: &mut Seq<ObserverMethod>,
) -> Result<(), AllocError>
    ensures { OnOk result
        (Adds (spec.IsObserverOf tables.now.deployment.now tables.now.qualifiers.now bean.now)
        (filter_map spec.observer members.now) observers.old observers.new) }
{
    for member in members {
        add_observer(alloc, tables, bean, member, observers)?;
    }
    Ok(())
}

/// The observers of the managed beans of a deployment, also those that they inherit.
pub(crate) fn observers_of(
    alloc: Global,
    tables: &Tables<'_>,
) -> Result<Seq<ObserverMethod>, AllocError>
    ensures { IfOk result (λ observers.
        spec.AreObserversOf tables.now.deployment.now tables.now.qualifiers.now
        (filter is_bean tables.now.deployment.now.classes) observers) }
{
    let mut observers = Seq::empty(alloc);
    for class in tables.deployment.classes.as_slice() {
        if class.bean.is_some() {
            let has = tables.observers_of(alloc, class)?;
            add_observers(alloc, tables, class, has.as_slice(), &mut observers)?;
        }
    }
    Ok(observers)
}
