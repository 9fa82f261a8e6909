//! How injected fields, parameters and lookups reach other contextual instances.
ghost use Rattle.std.specs.Prelude.{◌≡◌, [], IsSome, IsOk, OnOk, OnErr};
ghost use Rattle.std.specs.Option.{option_copied};
ghost use Rattle.cdi_base.specs.Maps.{at, put as put_in};

use cdi_base::Name;
use indexmap::IndexMap;
use std::alloc::{AllocError, Global};
use std::marker::Model;

/// How an injected field, an injected parameter or the result of a lookup reaches a contextual instance
/// (Jakarta CDI 4.0, *Contextual reference for a bean*).
#[derive(Clone, Copy, Debug, PartialEq, Eq)]
pub enum Reference {
    /// A client proxy for the bean with this index: each use obtains its contextual instance anew
    /// (Jakarta CDI 4.0, *Client proxies*).
    Proxy(u32),
    /// The instance with this number: one of a dependent bean.
    Direct(u32),
    /// Nothing: a dependent producer gave null.
    Empty,
}

/// The references of an instance's injected fields, which contracts see as a list in the order in which the fields
/// were injected.
#[derive(Drop)]
pub struct References {
    entries: IndexMap<Name, Reference>,
}

impl Model for References {
    ghost use Rattle.std.specs.Prelude.{List, ℕ};
    ghost use Rattle.cdi_store.specs.declared.references.Reference.{Reference as AnyReference};

    ghost Value = { List (ℕ × AnyReference) };

    ghost view = { λ r. r.entries.entries };
}

impl References {
    /// No references.
    pub fn new(alloc: Global) -> References
        ensures { result ≡ [] }
    {
        References {
            entries: IndexMap::new(alloc),
        }
    }

    /// The reference of a field, if it has one.
    pub fn get(&self, field: Name) -> Option<Reference>
        ensures { result ≡ at self.now field }
    {
        self.entries.get(&field).copied()
    }

    /// Gives a field a reference. A field that has none yet goes last, and only there memory can be wanting. On an
    /// error nothing changes.
    pub fn put(&mut self, field: Name, reference: Reference) -> Result<(), AllocError>
        ensures ok { OnOk result (self.new ≡ put_in field reference self.old) }
        ensures err { OnErr result (self.new ≡ self.old) }
        ensures there { IsSome (at self.old field) → IsOk result }
    {
        self.entries.insert(field, reference)?;
        Ok(())
    }
}
