//! An event.
ghost use Rattle.std.specs.Prelude.{◌≡◌, ◌∷◌, ◌↔◌, IsTrue, IfOk};
ghost use Rattle.cdi_quals.specs.Qualifiers as quals;
ghost use Rattle.cdi_types.specs.ListsThose.{ListsThose};
ghost use Rattle.cdi_observers.specs.Observers as spec;
ghost use Rattle.cdi_observers.specs.Order.{HearsAt};

use crate::order::RankedObserver;
use cdi_base::{Name, Seq};
use cdi_beans::ObserverMethod;
use cdi_quals::{QualSet, Qualifier};
use cdi_types::TypeTable;
use std::alloc::{AllocError, Global};

/// An event, with what tells who hears it.
#[derive(Drop)]
pub(crate) struct Event<'a> {
    pub(crate) class: Name,
    pub(crate) qualifiers: &'a QualSet,
    pub(crate) types: &'a TypeTable,
    /// The qualifier `Any`, which every event has.
    pub(crate) any: &'a Qualifier,
    ghost is_any: { any.now ≡ spec.any },
}

/// Whether an event with these qualifiers and `Any` has a required one.
fn has(any: &Qualifier, qualifiers: &QualSet, required: &Qualifier) -> bool
    ensures { result ≡ quals.has (any.now ∷ qualifiers.now) required.now }
{
    required.same_binding(any) || qualifiers.has(required)
}

/// Whether an event with these qualifiers and `Any` has each required one.
fn has_all(any: &Qualifier, qualifiers: &QualSet, required: &QualSet) -> bool
    ensures { result ≡ quals.has_all (any.now ∷ qualifiers.now) required.now }
{
    required
        .as_slice()
        .iter()
        .all(|qualifier| has(any, qualifiers, qualifier))
}

impl Event<'_> {
    /// Whether an observer hears the event (Jakarta CDI 4.0, *Observer resolution*).
    fn hears(&self, observer: &ObserverMethod) -> bool
        ensures { IsTrue result
            ↔ spec.Hears self.now.types.now self.now.class self.now.qualifiers.now observer.now }
    {
        self.types.is_subtype(self.class, observer.ty)
            && has_all(self.any, self.qualifiers, &observer.qualifiers)
    }

    /// Whether the observer at an index hears the event.
    fn hears_at(&self, observers: &[ObserverMethod], index: usize) -> bool
        ensures { IsTrue result ↔ HearsAt self.now.types.now self.now.class
            self.now.qualifiers.now observers.now index }
    {
        match observers.get(index) {
            Some(observer) => self.hears(observer),
            None => false,
        }
    }

    /// The observers that hear the event, in this order.
    pub(crate) fn heard(
        &self,
        alloc: Global,
        observers: &[ObserverMethod],
        order: &[RankedObserver],
    ) -> Result<Seq<RankedObserver>, AllocError>
        ensures { IfOk result (λ heard. ListsThose (λ r. HearsAt self.now.types.now
            self.now.class self.now.qualifiers.now observers.now r.index) order.now heard) }
    {
        let mut heard = Seq::empty(alloc);
        for ranked in order {
            if self.hears_at(observers, ranked.index) {
                heard.push(*ranked)?;
            }
        }
        Ok(heard)
    }
}
