//! Laws of the definitions that the contracts cite.
ghost use Rattle.std.specs.Prelude.{◌≡◌, ◌≢◌, ◌↔◌, IsTrue, List, ◌∷◌, ◌++◌, Contains};
ghost use Rattle.cdi_base.specs.BuiltIn.{number_of};
ghost use Rattle.cdi_base.specs.declared.built_in.BuiltIn.TheVariants.{Any as any_qualifier};
ghost use Rattle.cdi_base.specs.declared.uses.Use.{Use};
ghost use Rattle.cdi_bodies.specs.Events.{same_qualifiers, AreAlike, AreAmong};

/// Two lists of qualifiers are those of one event exactly if each use of the one, but for `Any`, is like one of the other, and
/// the other way round: it has the same name and, but for null ones, the same members. So it is reflexive, symmetric and
/// transitive; the order of the uses, repeats and `Any` don't matter; and a use may be put in the place of one that it is like.
pub fn law_same_qualifiers()
    ensures exact { (us vs : List Use)
        → IsTrue (same_qualifiers us vs) ↔ (AreAmong us vs × AreAmong vs us) }
    ensures reflexive { (us : List Use) → IsTrue (same_qualifiers us us) }
    ensures symmetric { (us vs : List Use) → same_qualifiers us vs ≡ same_qualifiers vs us }
    ensures transitive { (us vs ws : List Use) → IsTrue (same_qualifiers us vs)
        → IsTrue (same_qualifiers vs ws) → IsTrue (same_qualifiers us ws) }
    ensures of_uses { (us vs : List Use)
        → ((u : Use) → u.name ≢ number_of any_qualifier → Contains us u ↔ Contains vs u)
        → IsTrue (same_qualifiers us vs) }
    ensures of_members { (u v : Use) (front back : List Use) → AreAlike u v
        → IsTrue (same_qualifiers (front ++ u ∷ back) (front ++ v ∷ back)) }
{}
