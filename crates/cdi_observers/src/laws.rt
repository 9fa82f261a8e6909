//! Laws of observer resolution, over the definitions alone.
ghost use Rattle.std.specs.Prelude.{◌≡◌, ◌≢◌, ℕ, List, []};
ghost use Rattle.std.specs.List.{All};
ghost use Rattle.cdi_quals.specs.declared.qualifier.Qualifier.{Qualifier};
ghost use Rattle.cdi_observers.specs.Groups.{AreGroupsOf};
ghost use Rattle.cdi_observers.specs.Observers.{ObserverTable};
ghost use Rattle.cdi_observers.specs.declared.group.ObserverGroup.{ObserverGroup};

/// An event has one list of groups, none of which is empty.
pub fn law_groups()
    ensures one_answer { (table : ObserverTable) (class : ℕ) (qualifiers : List Qualifier)
        → (groups others : List ObserverGroup) → AreGroupsOf table class qualifiers groups
        → AreGroupsOf table class qualifiers others → groups ≡ others }
    ensures none_empty { (table : ObserverTable) (class : ℕ) (qualifiers : List Qualifier)
        → (groups : List ObserverGroup) → AreGroupsOf table class qualifiers groups
        → All (λ g. g.observers ≢ []) groups }
{}
