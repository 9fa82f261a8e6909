//! A question as it was written.
ghost use Rattle.std.specs.Prelude.{◌↔◌, IsTrue};
ghost use Rattle.cdi_cache.specs.Written.{IsSame};

use crate::value::hash_value;
use cdi_base::{Name, Use};
use std::hash::{BuildHasher, BuildHasherDefault, FoldHasher, Hash, Hasher};

/// A required type, with the required qualifiers as they were written.
#[derive(Clone, Copy)]
pub struct WrittenQuestion<'a> {
    pub ty: Name,
    pub uses: &'a [Use],
}

fn hash_use<H: Hasher>(written: &Use, state: &mut H) {
    written.name.hash(state);
    for member in written.members.as_slice() {
        member.name.hash(state);
        hash_value(&member.value, state);
    }
}

impl WrittenQuestion<'_> {
    /// Whether another one asks for the same in the same words: its uses stand in the same order, and give the same values to the
    /// same members in the same order.
    pub fn is_same(&self, other: &WrittenQuestion<'_>) -> bool
        ensures { IsTrue result ↔ IsSame self.now other.now }
    {
        self.ty == other.ty && self.uses == other.uses
    }

    /// A hash of it. Others may have the same.
    pub fn hash(&self) -> u64 {
        let mut state: FoldHasher = BuildHasherDefault::new().build_hasher();
        self.ty.hash(&mut state);
        for written in self.uses {
            hash_use(written, &mut state);
        }
        state.finish()
    }
}
