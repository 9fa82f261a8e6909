//! Methods that are kept, and the keys of their names.
ghost use Rattle.std.specs.Prelude.{◌≡◌, ◌++◌, [], nat_eq, position, slice_get, IfOk, OnOk};
ghost use Rattle.std.specs.Option.{option_copied};
ghost use Rattle.cdi_method_maps.specs.KeptMethods.{hidden_changes, Grows, IsChangeFor, Puts};

use crate::named_method::NamedMethod;
use cdi_base::{Name, Seq};
use cdi_machine::Method;
use cdi_shared_maps::Change;
use indexmap::IndexSet;
use std::alloc::{AllocError, Global};

/// Methods, each at its place, and names, each at its key. A method or a name that is there stays at its place.
pub(crate) struct KeptMethods {
    methods: Seq<Method>,
    keys: IndexSet<Name>,
}

/// In one call, so that the proof of each function that owns one has one step here, and not one for each of its parts.
impl Drop for KeptMethods {
    fn drop(self) {
        let KeptMethods {
            methods: _methods,
            keys: _keys,
        } = self;
    }
}

impl KeptMethods {
    /// No methods, and no names.
    pub(crate) fn new(alloc: Global) -> KeptMethods
        ensures methods { result.methods ≡ [] }
        ensures keys { result.keys.keys ≡ [] }
    {
        KeptMethods {
            methods: Seq::empty(alloc),
            keys: IndexSet::new(alloc),
        }
    }

    /// The key of a name, if it has one.
    pub(crate) fn key(&self, name: Name) -> Option<usize>
        ensures { result ≡ position (nat_eq name) self.now.keys.keys }
    {
        self.keys.get_index_of(&name)
    }

    /// The method at a place.
    pub(crate) fn get(&self, place: u32) -> Option<&Method>
        ensures { option_copied result ≡ slice_get self.now.methods place }
    {
        self.methods.get(place as usize)
    }

    /// Keeps a method, and gives the change that puts it into a map. Where there is no memory, or its place is no `u32`, the method
    /// is not kept, but its name may have got a key.
    fn put(&mut self, named: NamedMethod) -> Result<Change, AllocError>
        ensures grows { Grows self.old self.new }
        ensures change { IfOk result (IsChangeFor self.new named) }
    {
        let Ok(place) = u32::try_from(self.methods.len()) else {
            return Err(AllocError);
        };
        let NamedMethod { name, method } = named;
        let (key, _) = self.keys.insert_full(name)?;
        self.methods.push(method)?;
        Ok(Change {
            key,
            value: Some(place),
        })
    }

    /// Keeps methods, and gives the changes that put them into a map. On an error some of them may be kept.
    pub(crate) fn put_all(
        &mut self,
        alloc: Global,
        methods: Seq<NamedMethod>,
    ) -> Result<Vec<Change>, AllocError>
        ensures grows { Grows self.old self.new }
        ensures changes { IfOk result (λ changes. Puts self.new methods changes.items) }
    {
        let mut changes = Vec::new(alloc);
        for named in methods.into_vec() {
            let change = self.put(named)?;
            changes.push(change)?;
        }
        Ok(changes)
    }

    /// Adds the changes that take the methods of these names out of a map. A name with no key needs none.
    pub(crate) fn hide(&self, names: &[Name], changes: &mut Vec<Change>) -> Result<(), AllocError>
        ensures { OnOk result (changes.new.items
            ≡ changes.old.items ++ hidden_changes self.now names.now) }
    {
        for name in names {
            if let Some(key) = self.key(*name) {
                changes.push(Change { key, value: None })?;
            }
        }
        Ok(())
    }
}
