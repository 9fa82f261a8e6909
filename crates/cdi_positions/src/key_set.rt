//! Sets of keys.
ghost use Rattle.std.specs.Prelude.{◌≡◌, ◌++◌, ◌∷◌, [], IfOk, IsTrue, not};
ghost use Rattle.cdi_positions.specs.RepeatedKey.{is_among};

use indexmap::IndexSet;
use std::alloc::{AllocError, Global};
use std::marker::Model;

/// The keys of an object so far. Contracts see the list of their texts, in their order.
#[derive(Drop)]
pub(crate) struct KeySet {
    keys: IndexSet<String>,
}

impl Model for KeySet {
    ghost use Rattle.std.specs.Prelude.{List, ℕ, map, string_bytes};

    ghost Value = { List (List ℕ) };

    ghost view = { λ k. map string_bytes k.keys.keys };
}

impl KeySet {
    /// No keys.
    pub(crate) fn new(alloc: Global) -> KeySet
        ensures { result ≡ [] }
    {
        KeySet {
            keys: IndexSet::new(alloc),
        }
    }

    /// Adds a key, and answers whether it is new. An error where a growth was refused.
    pub(crate) fn insert(&mut self, key: &str) -> Result<bool, AllocError>
        ensures new { IfOk result (λ is_new. is_new ≡ not (is_among self.old key.now)) }
        ensures added { IfOk result
            (λ is_new. IsTrue is_new → self.new ≡ self.old ++ key.now ∷ []) }
    {
        let copy = String::from_str(*self.keys.allocator(), key)?;
        let is_new = self.keys.insert(copy)?;
        Ok(is_new)
    }
}
