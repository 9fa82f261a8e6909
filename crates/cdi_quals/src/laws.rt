//! Laws of sets of qualifiers, over the definitions alone.
ghost use Rattle.std.specs.Prelude.{◌≡◌, ◌++◌, ℕ, List, Contains, true};
ghost use Rattle.cdi_quals.specs.Order.{compare_qualifiers as order_of};
ghost use Rattle.cdi_quals.specs.OrderedSet.{IsOrderedSet};
ghost use Rattle.cdi_quals.specs.Qualifiers.{has};
ghost use Rattle.cdi_quals.specs.declared.qualifier.Qualifier.{Qualifier};

/// A set has each use that it is made of.
pub fn law_has_its_own()
    ensures { (names : List (List ℕ)) (uses set : List Qualifier)
        → IsOrderedSet (order_of names) uses set
        → (q : Qualifier) → Contains uses q → has set q ≡ true }
{}

/// A set that is made of more uses has all that the set of the fewer has.
pub fn law_loses_nothing()
    ensures { (names : List (List ℕ)) (uses more set larger : List Qualifier)
        → IsOrderedSet (order_of names) uses set
        → IsOrderedSet (order_of names) (uses ++ more) larger
        → (q : Qualifier) → has set q ≡ true → has larger q ≡ true }
{}
