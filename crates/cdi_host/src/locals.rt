//! What a running body has looked up.
ghost use Rattle.std.specs.Prelude.{◌≡◌, [], IsSome, IsOk, OnOk, OnErr};
ghost use Rattle.cdi_base.specs.Maps.{at, put as put_in};

use cdi_store::Reference;
use indexmap::IndexMap;
use std::alloc::{AllocError, Global};
use std::marker::Model;

/// The references that the lookups of a running body have found, which contracts see as a list in the order in which
/// they were found first (Jakarta CDI 4.0, *Programmatic lookup*). Most bodies look nothing up, and need no map.
#[derive(Drop)]
pub struct Locals {
    entries: Option<Box<IndexMap<u32, Reference>>>,
    alloc: Global,
}

impl Model for Locals {
    ghost use Rattle.std.specs.Prelude.{List, ℕ, option_map};
    ghost use Rattle.cdi_store.specs.declared.references.Reference.{Reference as AnyReference};
    ghost use Rattle.cdi_host.specs.FirstUse.{or_empty};

    ghost Value = { List (ℕ × AnyReference) };

    ghost view = { λ l. or_empty (option_map (λ b. b.value.entries) l.entries) };
}

impl Locals {
    /// Nothing has been found.
    pub fn new(alloc: Global) -> Locals
        ensures { result ≡ [] }
    {
        Locals {
            entries: None,
            alloc,
        }
    }

    /// What the lookup has found, if it has found something.
    pub fn get(&self, lookup: u32) -> Option<Reference>
        ensures { result ≡ at self.now lookup }
    {
        match &self.entries {
            Some(entries) => entries.get(&lookup).copied(),
            None => None,
        }
    }

    /// The lookup has found a reference. One that has found none yet goes last, and only there memory can be wanting. On an
    /// error nothing changes.
    pub fn put(&mut self, lookup: u32, reference: Reference) -> Result<(), AllocError>
        ensures ok { OnOk result (self.new ≡ put_in lookup reference self.old) }
        ensures err { OnErr result (self.new ≡ self.old) }
        ensures there { IsSome (at self.old lookup) → IsOk result }
    {
        if let Some(entries) = &mut self.entries {
            entries.insert(lookup, reference)?;
            return Ok(());
        }
        let mut entries = IndexMap::new(self.alloc);
        entries.insert(lookup, reference)?;
        self.entries = Some(Box::new(self.alloc, entries)?);
        Ok(())
    }
}
