//! Where each type is declared.
ghost use Rattle.std.specs.Prelude.{◌≡◌, ◌==◌, ℕ, position, nat_eq, IfOk};
ghost use Rattle.std.specs.HashMap.{get};
ghost use Rattle.cdi_types.specs.Nodes.{place_of};

use crate::declaration::TypeDeclaration;
use cdi_base::Name;
use std::alloc::{AllocError, Global};
use std::collections::HashMap;

/// The place of the first declaration of each name.
#[derive(Drop)]
pub(crate) struct TypeIndex {
    places: HashMap<Name, usize>,
}

impl TypeIndex {
    ghost use Rattle.cdi_types.specs.Index.{place_in};

    /// The index of a list of declarations.
    pub(crate) fn build(alloc: Global, types: &[TypeDeclaration]) -> Result<TypeIndex, AllocError>
        ensures { IfOk result
            (λ index. (name : ℕ) → place_in index name ≡ place_of types.now name) }
    {
        let mut places = HashMap::new(alloc);
        for (place, declared) in types.iter().enumerate() {
            if !places.contains_key(&declared.name) {
                places.insert(declared.name, place)?;
            }
        }
        Ok(TypeIndex { places })
    }

    /// The place of the first declaration of a name, if it is declared.
    pub(crate) fn place(&self, name: Name) -> Option<usize>
        ensures { result ≡ place_in self.now name }
    {
        self.places.get(&name).copied()
    }
}
