//! The numbers of the instances that a context has, in order.
ghost use Rattle.std.specs.Prelude.{◌≡◌, [], Some, IsOk, IsTrue, OnOk, OnErr};
ghost use Rattle.cdi_contexts.specs.Places.{is_listed, Adds, IsLast, IsOutline, IsSame, Replaces};
ghost use Rattle.cdi_contexts.specs.Places.{Takes};

use crate::context::Held;
use std::alloc::{AllocError, Global};
use std::collections::BTreeSet;

/// The number of an instance and the bean that it is of. Numbers are compared first.
#[derive(Clone, Copy, PartialEq, Eq, PartialOrd, Ord)]
pub struct Place {
    pub number: u32,
    pub bean: u32,
}

/// The numbers of the instances that a context has, each with its bean, in rising order.
#[derive(Drop)]
pub struct Places {
    all: BTreeSet<Place>,
}

impl Places {
    /// None.
    pub fn new(alloc: Global) -> Places
        ensures { IsOutline [] result }
    {
        Places {
            all: BTreeSet::new(alloc),
        }
    }

    /// Adds the number of what a bean has, if that is one. One that is there already needs no
    /// memory. On an error nothing changes.
    pub fn add(&mut self, bean: u32, held: Held) -> Result<(), AllocError>
        ensures ok { OnOk result (Adds bean held self.old self.new) }
        ensures err { OnErr result (IsSame self.old self.new) }
        ensures there { IsTrue (is_listed bean held self.old) → IsOk result }
    {
        if let Held::Is(number) = held {
            self.all.insert(Place { number, bean })?;
        }
        Ok(())
    }

    /// Takes out the number of what a bean has, if that is one.
    pub fn remove(&mut self, bean: u32, held: Held)
        ensures { Takes bean (Some held) self.old self.new }
    {
        if let Held::Is(number) = held {
            let _ = self.all.remove(&Place { number, bean });
        }
    }

    /// Takes out the number of what a bean had before, if that is one and isn't the number of what
    /// it has now.
    pub fn replace(&mut self, bean: u32, before: Option<Held>, held: Held)
        ensures { Replaces bean before held self.old self.new }
    {
        let Some(before) = before else {
            return;
        };
        if before != held {
            self.remove(bean, before);
        }
    }

    /// The greatest number.
    pub fn last(&self) -> Option<u32>
        ensures { IsLast self.now result }
    {
        Some(self.all.last()?.number)
    }
}
