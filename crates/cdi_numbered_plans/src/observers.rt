//! The observers of enabled beans (Jakarta CDI 4.0, *Observer methods*).
ghost use Rattle.std.specs.Prelude.{◌≡◌, map, IfOk, IsTrue};
ghost use Rattle.cdi_numbered_plans.specs.Numbered as spec;
ghost use Rattle.cdi_numbered_plans.specs.Numbers as sizes;
ghost use Rattle.cdi_numbered_plans.specs.Plans.{AreObserversBy};

use crate::members::member_of;
use crate::numbering::Numbering;
use cdi_base::Seq;
use cdi_cache::Lookup;
use cdi_event_tables::PlannedObserver;
use cdi_machine::Observer;
use cdi_resolve::Resolver;
use std::alloc::{AllocError, Global};

/// An observer.
fn observer_of(
    alloc: Global,
    numbering: &Numbering<'_>,
    lookup: &mut Lookup<&Resolver>,
    observer: &PlannedObserver,
) -> Result<Observer, AllocError>
    requires asks { spec.AsksNumbered numbering.now lookup.old.now }
    requires numbers { IsTrue (sizes.numbers_observer observer.now) }
    ensures observer { IfOk result (λ made. made ≡ spec.observer_by numbering.now observer.now) }
    ensures kept { spec.AsksNumbered numbering.now lookup.new.now }
{
    let bean = observer.bean as u32;
    let member = member_of(alloc, numbering, lookup, &observer.member)?;
    Ok(Observer {
        bean,
        member,
        conditional: observer.conditional,
    })
}

/// Some observers, in their order.
fn observers_of(
    alloc: Global,
    numbering: &Numbering<'_>,
    lookup: &mut Lookup<&Resolver>,
    observers: &[PlannedObserver],
) -> Result<Seq<Observer>, AllocError>
    requires asks { spec.AsksNumbered numbering.now lookup.old.now }
    requires numbers { IsTrue (sizes.numbers_observers observers.now) }
    ensures observers { IfOk result
        (λ all. all ≡ map (spec.observer_by numbering.now) observers.now) }
    ensures kept { spec.AsksNumbered numbering.now lookup.new.now }
{
    let mut all = Seq::empty(alloc);
    for observer in observers {
        all.push(observer_of(alloc, numbering, lookup, observer)?)?;
    }
    Ok(all)
}

/// Some observers in the words of an instance's life, in their order: what the machine is told of them, with what each injection point
/// resolves to. There are none if what they name can't be numbered: there are too many beans or interceptors. The lookup has to ask among
/// the beans that plans are numbered by.
pub fn observers_by(
    alloc: Global,
    numbering: &Numbering<'_>,
    lookup: &mut Lookup<&Resolver>,
    observers: &[PlannedObserver],
) -> Result<Seq<Observer>, AllocError>
    requires { spec.AsksOf numbering.now lookup.old.now }
    ensures observers { IfOk result (AreObserversBy numbering.now observers.now) }
    ensures kept { spec.AsksOf numbering.now lookup.new.now }
{
    if numbering.can_number_observers(observers) {
        observers_of(alloc, numbering, lookup, observers)
    } else {
        Ok(Seq::empty(alloc))
    }
}
