//! The enabled observers.
ghost use Rattle.std.specs.Prelude.{◌≡◌, true, slice_get, IfOk};
ghost use Rattle.std.specs.Option.{option_copied};
ghost use Rattle.cdi_enable.specs.Enablement.{IsEnabledClass};
ghost use Rattle.cdi_observers.specs.Groups.{AreGroupsOf};
ghost use Rattle.cdi_observers.specs.Observers as spec;

use crate::event::Event;
use crate::group::{ObserverGroup, groups_of};
use crate::order::{RankedObserver, order_of};
use cdi_base::{BuiltIn, Name, Seq};
use cdi_beans::ObserverMethod;
use cdi_enable::EnabledSet;
use cdi_quals::{QualSet, Qualifier};
use cdi_types::TypeTable;
use std::alloc::{AllocError, Global};
use std::marker::Model;

/// The observers of enabled beans, which are asked who hears an event (Jakarta CDI 4.0, *Observer resolution*). Contracts see the
/// types and the enabled observers. A question goes through all of these once.
#[derive(Drop)]
pub struct Observers {
    types: TypeTable,
    observers: Seq<ObserverMethod>,
    order: Seq<RankedObserver>,
    any: Qualifier,
}

impl Model for Observers {
    ghost use Rattle.cdi_observers.specs.Observers.{ObserverTable};
    ghost use Rattle.cdi_observers.specs.Order.{IsPrepared};

    ghost Value = { ObserverTable };

    ghost view = { λ s. record { types = s.types; observers = s.observers } };

    ghost invariant = { λ s. IsPrepared s.observers s.order s.any };
}

/// Those of some observers whose beans are enabled.
fn enabled_ones(observers: Seq<ObserverMethod>, enabled: &EnabledSet) -> Seq<ObserverMethod>
    ensures { spec.AreEnabledOnes enabled.now observers result }
{
    let mut observers = observers.into_vec();
    observers.retain(|observer| enabled.contains_class(observer.bean));
    Seq::new(observers)
}

impl Observers {
    /// Those of the observers of a bean list whose beans are enabled, with the types of the deployment.
    pub fn build(
        alloc: Global,
        observers: Seq<ObserverMethod>,
        enabled: &EnabledSet,
        types: TypeTable,
    ) -> Result<Observers, AllocError>
        ensures { IfOk result (spec.IsTableOf types observers enabled.now) }
    {
        let observers = enabled_ones(observers, enabled);
        let order = order_of(alloc, observers.as_slice())?;
        Ok(Observers {
            types,
            observers,
            order,
            any: Qualifier {
                name: BuiltIn::Any.name(),
                members: Seq::empty(alloc),
            },
        })
    }

    /// The types of the deployment.
    pub fn types(&self) -> &TypeTable
        ensures { result.now ≡ self.now.types }
    {
        &self.types
    }

    /// The enabled observer at an index, in the order of the bean list.
    pub fn observer(&self, index: usize) -> Option<&ObserverMethod>
        ensures { option_copied result ≡ slice_get self.now.observers index }
    {
        self.observers.get(index)
    }

    /// The observers that hear an event of a class with these qualifiers: those whose observed type is among the types of the class,
    /// and whose qualifiers the event all has; every event has `Any` (Jakarta CDI 4.0, *Observer resolution*). They stand in groups by
    /// ascending priority, and in a group in the order of the bean list (Jakarta CDI 4.0, *Observer ordering*).
    pub fn matching(
        &self,
        alloc: Global,
        class: Name,
        qualifiers: &QualSet,
    ) -> Result<Seq<ObserverGroup>, AllocError>
        ensures { IfOk result (AreGroupsOf self.now class qualifiers.now) }
    {
        let event = Event {
            class,
            qualifiers,
            types: &self.types,
            any: &self.any,
        };
        let heard = event.heard(alloc, self.observers.as_slice(), self.order.as_slice())?;
        groups_of(alloc, heard.as_slice())
    }
}
