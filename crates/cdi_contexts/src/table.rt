//! What one context has.
ghost use Rattle.std.specs.Prelude.{◌≡◌, None, IsOk, IsTrue, OnOk, OnErr};
ghost use Rattle.cdi_base.specs.Maps.{at};
ghost use Rattle.cdi_contexts.specs.Contexts.{active_with, active_without, fits, fresh, greatest};

use crate::context::{Held, Status};
use crate::places::Places;
use std::alloc::{AllocError, Global};
use std::collections::BTreeMap;
use std::marker::Model;

/// What one context has: for beans, by their indices in rising order, their instances, and beside
/// that the numbers of those in order.
#[derive(Drop)]
pub struct Table {
    status: Status,
    held: BTreeMap<u32, Held>,
    places: Places,
}

impl Model for Table {
    ghost use Rattle.std.specs.Ordering.{nat_cmp};
    ghost use Rattle.std.specs.BTreeMap.{IsOrdered};
    ghost use Rattle.cdi_contexts.specs.Contexts.{Active};
    ghost use Rattle.cdi_contexts.specs.Places.{IsOutline};

    ghost Value = { Active };

    ghost view = { λ t. record { status = t.status; holds = t.held.entries } };

    ghost invariant = { λ t. IsOrdered nat_cmp t.held × IsOutline t.held.entries t.places };
}

impl Table {
    /// A context at its begin.
    pub fn new(alloc: Global) -> Table
        ensures { result ≡ fresh }
    {
        Table {
            status: Status::Open,
            held: BTreeMap::new(alloc),
            places: Places::new(alloc),
        }
    }

    /// Whether instances are made in the context.
    pub fn status(&self) -> Status
        ensures { result ≡ self.now.status }
    {
        self.status
    }

    /// What the context has for a bean.
    pub fn entry(&self, bean: u32) -> Option<Held>
        ensures { result ≡ at self.now.holds bean }
    {
        self.held.get(&bean).copied()
    }

    /// Gives the context something for a bean. What the bean has already, and `Held::Making` for a
    /// bean that has an entry, need no memory. On an error nothing changes.
    pub fn put(&mut self, bean: u32, held: Held) -> Result<(), AllocError>
        ensures ok { OnOk result (self.new ≡ active_with bean held self.old) }
        ensures err { OnErr result (self.new ≡ self.old) }
        ensures there { IsTrue (fits (at self.old.holds bean) held) → IsOk result }
    {
        self.places.add(bean, held)?;
        match self.held.insert(bean, held) {
            Ok(before) => {
                self.places.replace(bean, before, held);
                Ok(())
            }
            Err(_) => {
                self.places.remove(bean, held);
                Err(AllocError)
            }
        }
    }

    /// Takes from the context what it has for a bean.
    pub fn leave(&mut self, bean: u32)
        ensures { self.new ≡ active_without bean self.old }
    {
        if let Some(before) = self.held.remove(&bean) {
            self.places.remove(bean, before);
        }
    }

    /// No more instances are made in the context.
    pub fn end(&mut self)
        ensures { self.new ≡ record self.old { status = Status.Ending } }
    {
        self.status = Status::Ending;
    }

    /// The greatest number of an instance that the context has.
    pub fn last(&self) -> Option<u32>
        ensures { result ≡ greatest None self.now.holds }
    {
        self.places.last()
    }
}
