//! A dense set of names.
ghost use Rattle.std.specs.Prelude.{◌≡◌, ◌==◌, ◌||◌, ℕ, false, OnOk};
ghost use Rattle.std.specs.List.{list_any};
ghost use Rattle.cdi_types.specs.Members.{declares};
ghost use Rattle.cdi_types.specs.NameSet.{has};

use cdi_base::Name;
use cdi_deployment::Class;
use std::alloc::{AllocError, Global};

/// A set of names, by the bits of their numbers, 64 to a word. It has as many words as the greatest number in it needs.
#[derive(Drop)]
pub struct NameSet {
    words: Vec<u64>,
}

impl NameSet {
    /// No names.
    pub fn new(alloc: Global) -> NameSet
        ensures { (name : ℕ) → has result name ≡ false }
    {
        NameSet {
            words: Vec::new(alloc),
        }
    }

    /// Whether a name is in the set.
    pub fn contains(&self, name: Name) -> bool
        ensures { result ≡ has self.now name }
    {
        let bit = name.number() as usize;
        match self.words.get(bit / 64) {
            Some(word) => (*word >> (bit % 64)) & 1 == 1,
            None => false,
        }
    }

    /// Puts a name into the set.
    pub fn insert(&mut self, name: Name) -> Result<(), AllocError>
        ensures { OnOk result ((n : ℕ) → has self.new n ≡ (name == n || has self.old n)) }
    {
        let bit = name.number() as usize;
        if self.words.len() <= bit / 64 {
            self.words.resize(bit / 64 + 1, 0)?;
        }
        self.words[bit / 64] |= 1 << (bit % 64);
        Ok(())
    }

    /// Puts names into the set.
    pub(crate) fn insert_all(&mut self, names: &[Name]) -> Result<(), AllocError>
        ensures { OnOk result ((name : ℕ) → has self.new name
            ≡ (list_any (λ n. n == name) names.now || has self.old name)) }
    {
        for name in names {
            self.insert(*name)?;
        }
        Ok(())
    }

    /// Puts the names of a class's members into the set.
    pub(crate) fn insert_members(&mut self, class: &Class) -> Result<(), AllocError>
        ensures { OnOk result ((name : ℕ) → has self.new name
            ≡ (declares name class.now || has self.old name)) }
    {
        for member in class.members.as_slice() {
            self.insert(member.name())?;
        }
        Ok(())
    }
}
