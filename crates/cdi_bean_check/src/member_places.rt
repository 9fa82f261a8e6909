//! Where fields and members are declared.
ghost use Rattle.std.specs.Prelude.{◌≡◌};
ghost use Rattle.cdi_bean_check.specs.MemberPlaces as spec;

use cdi_base::Name;
use std::collections::HashSet;

/// Whether a set of places has that of a field or a member in a class, by their names.
pub fn has_place(places: &HashSet<(Name, Name)>, class: Name, name: Name) -> bool
    ensures { result ≡ spec.has_place places.now (class, name) }
{
    places.contains(&(class, name))
}
