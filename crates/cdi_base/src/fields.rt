//! The fields of an instance.
ghost use Rattle.std.specs.Prelude.{◌≡◌, [], length, IsTrue, IsOk, OnOk, OnErr};
ghost use Rattle.cdi_base.specs.Fields as spec;

use crate::name::Name;
use crate::value::Value;
use indexmap::IndexMap;
use std::alloc::{AllocError, Global};
use std::marker::Model;

/// A finite map from names to values, which contracts see as its entries in the order in which the names came.
#[derive(Drop)]
pub struct Fields {
    entries: IndexMap<Name, Value>,
    null: Value,
}

impl Model for Fields {
    ghost use Rattle.std.specs.Prelude.{◌≡◌, List, ℕ};
    ghost use Rattle.cdi_base.specs.declared.value.Value.{Value as AnyValue};
    ghost use Rattle.cdi_base.specs.declared.value.Value.TheVariants.{Null};

    ghost Value = { List (ℕ × AnyValue) };

    ghost view = { λ f. f.entries.entries };

    ghost invariant = { λ f. f.null ≡ Null };
}

impl Fields {
    /// No fields.
    pub fn new(alloc: Global) -> Fields
        ensures { result ≡ [] }
    {
        Fields {
            entries: IndexMap::new(alloc),
            null: Value::Null,
        }
    }

    /// How many fields there are.
    pub fn len(&self) -> usize
        ensures { result ≡ length self.now }
    {
        self.entries.len()
    }

    /// Gives a field a value. A field that isn't there yet goes last, and only there memory can be wanting. On an error
    /// nothing changes.
    pub fn put(&mut self, name: Name, value: Value) -> Result<(), AllocError>
        ensures ok { OnOk result (self.new ≡ spec.put self.old name value) }
        ensures err { OnErr result (self.new ≡ self.old) }
        ensures there { IsTrue (spec.has self.old name) → IsOk result }
    {
        self.entries.insert(name, value)?;
        Ok(())
    }

    /// Gives a field that is there another value. An absent field changes nothing.
    pub fn set(&mut self, name: Name, value: Value)
        ensures { self.new ≡ spec.set self.old name value }
    {
        if let Some(index) = self.entries.get_index_of(&name) {
            self.entries[index] = value;
        }
    }

    /// Whether a field is there.
    pub fn has(&self, name: Name) -> bool
        ensures { result ≡ spec.has self.now name }
    {
        self.entries.contains_key(&name)
    }

    /// The value of a field, null if it is absent.
    pub fn get(&self, name: Name) -> &Value
        ensures { result.now ≡ spec.get self.now name }
    {
        match self.entries.get(&name) {
            Some(value) => value,
            None => &self.null,
        }
    }
}
