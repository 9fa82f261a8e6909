//! Laws of subtypes, over the definitions alone.
ghost use Rattle.std.specs.Prelude.{◌≡◌, ℕ, List, []};
ghost use Rattle.cdi_types.specs.Lineage.{IsSuperclass};
ghost use Rattle.cdi_types.specs.Subtype.{object, supertypes_of, IsBelow, IsSubtype, IsAcyclic};
ghost use Rattle.cdi_types.specs.declared.declaration.TypeDeclaration.{TypeDeclaration};

/// Where no type is its own proper supertype, and no declaration puts a type above `Object`, the subtypes are a partial order.
pub fn law_partial_order()
    ensures reflexive { (types : List TypeDeclaration) (a : ℕ) → IsSubtype types a a }
    ensures transitive { (types : List TypeDeclaration) → supertypes_of types object ≡ []
        → (a b c : ℕ) → IsSubtype types a b → IsSubtype types b c → IsSubtype types a c }
    ensures antisymmetric { (types : List TypeDeclaration) → supertypes_of types object ≡ []
        → IsAcyclic types
        → (a b : ℕ) → IsSubtype types a b → IsSubtype types b a → a ≡ b }
{}

/// A class is below its superclasses, so that where no type is its own proper supertype, no class is its own superclass: each class
/// having at most one direct superclass, the superclasses form a forest.
pub fn law_forest()
    ensures below { (types : List TypeDeclaration) (a b : ℕ)
        → IsSuperclass types b a → IsBelow types a b }
    ensures forest { (types : List TypeDeclaration) → IsAcyclic types
        → (a : ℕ) → IsSuperclass types a a → ⊥ }
{}
