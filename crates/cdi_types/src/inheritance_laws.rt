//! Laws of what is inherited, over the definitions alone.
ghost use Rattle.std.specs.Prelude.{◌≡◌, ◌++◌, ◌∷◌, [], ℕ, List, filter};
ghost use Rattle.cdi_deployment.specs.declared.deployment.Class.{Class};
ghost use Rattle.cdi_types.specs.declared.declaration.TypeDeclaration.{TypeDeclaration};
ghost use Rattle.cdi_types.specs.Line.{IsLineOf};
ghost use Rattle.cdi_types.specs.Members as spec;

/// A name has one line.
pub fn law_one_line()
    ensures { (types : List TypeDeclaration) (classes : List Class) (name : ℕ)
        → (line other : List Class)
        → IsLineOf types classes name line → IsLineOf types classes name other → line ≡ other }
{}

/// A class has what it inherits from its direct superclass, which is of what that has, and behind it its own members.
pub fn law_inherits()
    ensures { (line : List Class) (class : Class) → spec.members_of (line ++ class ∷ [])
        ≡ filter (spec.inherits class) (spec.members_of line) ++ spec.parts_of class class.members }
{}
