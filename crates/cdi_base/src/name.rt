//! Names, and the table that numbers them.
ghost use Rattle.std.specs.Prelude.{◌≡◌, [], ◌<◌, ◌≤◌, ◌↔◌, false, length, slice_get, option_map, position, bytes_eq, Some, IsTrue, IsOk, IfOk, OnOk, OnErr};
ghost use Rattle.std.specs.List.{list_all};
ghost use Rattle.cdi_base.specs.Name as spec;
ghost use Rattle.cdi_base.specs.Reading.{IsFault};

use crate::or_memory::OrMemory;
use indexmap::IndexSet;
use std::alloc::Global;
use std::marker::Model;
use thiserror::Error;

/// The most names that a table holds.
pub const MAX_NAMES: usize = 1_048_576;

/// The most bytes that a name has.
pub const MAX_NAME_BYTES: usize = 255;

/// An interned name, which contracts see as its number in the table that gave it.
#[derive(Clone, Copy, Debug, PartialEq, Eq, PartialOrd, Ord, Hash)]
pub struct Name {
    number: u32,
}

impl Model for Name {
    ghost use Rattle.std.specs.Prelude.{ℕ};

    ghost Value = { ℕ };

    ghost view = { λ n. n.number };

    ghost inverse = { λ n. record { number = n } };
}

impl Name {
    /// The name under a number. It is a name of the tables that hold so many.
    pub(crate) const fn under(number: u32) -> Name
        ensures { result ≡ number }
    {
        Name { number }
    }

    /// The number of the name. Numbers are small, so that tables by names can be dense.
    pub fn number(self) -> u32
        ensures { result ≡ self }
    {
        self.number
    }
}

/// A name was not interned, since the table holds [`MAX_NAMES`] others.
#[derive(Clone, Copy, Debug, PartialEq, Eq, Error)]
#[error("the table of names is full")]
pub struct TableFull;

/// A table of names, each under a number of its own. Contracts see the list of the texts, each at its number.
#[derive(Drop)]
pub struct Names {
    texts: IndexSet<String>,
}

impl Model for Names {
    ghost use Rattle.std.specs.Prelude.{List, ℕ, ◌≤◌, map, length, string_bytes};
    ghost use Rattle.std.specs.List.{IsDistinct};
    ghost use Rattle.std.specs.String.{string_eq};

    ghost Value = { List (List ℕ) };

    ghost view = { λ n. map string_bytes n.texts.keys };

    ghost invariant = { λ n. IsDistinct string_eq n.texts.keys × (length n.texts.keys ≤ 1048576) };
}

fn is_name_letter(byte: u8) -> bool
    ensures { result ≡ spec.is_name_letter byte }
{
    byte.is_ascii_alphanumeric() || byte == b'_' || byte == b'.' || byte == b'$'
}

fn are_name_letters(bytes: &[u8]) -> bool
    ensures { result ≡ list_all spec.is_name_letter bytes.now }
{
    for byte in bytes {
        if !is_name_letter(*byte) {
            return false;
        }
    }
    true
}

/// Whether a text is a name: 1 to [`MAX_NAME_BYTES`] ASCII letters, digits, `_`, `.` and `$`.
pub fn is_name(text: &str) -> bool
    ensures { result ≡ spec.is_name text.now }
{
    let bytes = text.as_bytes();
    !bytes.is_empty() && bytes.len() <= MAX_NAME_BYTES && are_name_letters(bytes)
}

impl Names {
    /// A table with no names.
    pub fn new(alloc: Global) -> Names
        ensures { result ≡ [] }
    {
        Names {
            texts: IndexSet::new(alloc),
        }
    }

    /// How many names the table holds.
    pub fn len(&self) -> usize
        ensures count { result ≡ length self.now }
        ensures within { length self.now ≤ MAX_NAMES }
    {
        self.texts.len()
    }

    /// Whether the table holds no name.
    pub fn is_empty(&self) -> bool
        ensures { IsTrue result ↔ (length self.now ≡ 0) }
    {
        self.texts.is_empty()
    }

    /// The name of a text, which a text that is new to the table is given. A text that is known is never refused. On an
    /// error nothing changes.
    pub fn intern(&mut self, text: &str) -> Result<Name, OrMemory<TableFull>>
        requires { IsTrue (spec.is_name text.now) }
        ensures number { IfOk result (λ name. name ≡ spec.number_of self.old text.now) }
        ensures added { OnOk result (self.new ≡ spec.with_name self.old text.now) }
        ensures within { IfOk result (λ name. name < length self.new) }
        ensures known { IsTrue (spec.is_known self.old text.now) → IsOk result }
        ensures full { IsFault result (record {}) ↔ (spec.has_room self.old text.now ≡ false) }
        ensures err { OnErr result (self.new ≡ self.old) }
    {
        if let Some(index) = self.texts.get_index_of(text) {
            return Ok(Name {
                number: index as u32,
            });
        }
        if self.texts.len() >= MAX_NAMES {
            return Err(OrMemory::Fault(TableFull));
        }
        let copy = String::from_str(*self.texts.allocator(), text)?;
        let (index, _) = self.texts.insert_full(copy)?;
        Ok(Name {
            number: index as u32,
        })
    }

    /// The text of a name, which has to be a name of this table.
    pub fn text(&self, name: Name) -> &str
        requires { name < length self.now }
        ensures value { slice_get self.now name ≡ Some result.now }
        ensures one_to_one { spec.number_of self.now result.now ≡ name }
    {
        self.texts.get_index(name.number as usize).unwrap().as_str()
    }

    /// The text of a name, if it is a name of this table.
    pub fn get(&self, name: Name) -> Option<&str>
        ensures { option_map (λ t. t.now) result ≡ slice_get self.now name }
    {
        match self.texts.get_index(name.number as usize) {
            Some(text) => Some(text.as_str()),
            None => None,
        }
    }

    /// The name of a text, if the table holds it.
    pub fn find(&self, text: &str) -> Option<Name>
        ensures { result ≡ position (bytes_eq text.now) self.now }
    {
        let index = self.texts.get_index_of(text)?;
        Some(Name {
            number: index as u32,
        })
    }

    /// The name that a text has in the table, or the one that it would be given next.
    pub fn name_for(&self, text: &str) -> Name
        ensures { result ≡ spec.number_of self.now text.now }
    {
        match self.texts.get_index_of(text) {
            Some(index) => Name {
                number: index as u32,
            },
            None => Name {
                number: self.texts.len() as u32,
            },
        }
    }
}
