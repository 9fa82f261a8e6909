//! The slots of requests or sessions by their names.
ghost use Rattle.std.specs.Prelude.{◌≡◌, None, Some, OnOk, OnErr, string_bytes};
ghost use Rattle.cdi_store.specs.NameIndex.{slot_of, Points, PointsAlike, PointsNowhere};

use std::alloc::{AllocError, Global};
use std::collections::HashMap;

/// The slots of requests or sessions by their names, in a map, so that a name is found without a
/// look at all of them.
#[derive(Drop)]
pub struct NameIndex {
    slots: HashMap<String, usize>,
}

impl NameIndex {
    /// No names.
    pub fn new(alloc: Global) -> NameIndex
        ensures { PointsNowhere result }
    {
        NameIndex {
            slots: HashMap::new(alloc),
        }
    }

    /// The slot of a name.
    pub fn find(&self, name: &str) -> Option<usize>
        ensures { result ≡ slot_of self.now name.now }
    {
        self.slots.get(name).copied()
    }

    /// Gives a name a slot. On an error nothing changes.
    pub fn add(&mut self, name: String, slot: usize) -> Result<(), AllocError>
        ensures ok { OnOk result (Points (string_bytes name) (Some slot) self.old self.new) }
        ensures err { OnErr result (PointsAlike self.old self.new) }
    {
        self.slots.insert(name, slot)?;
        Ok(())
    }

    /// Takes a name out.
    pub fn remove(&mut self, name: &str)
        ensures { Points name.now None self.old self.new }
    {
        let _ = self.slots.remove(name);
    }
}
