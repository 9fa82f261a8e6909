//! Places, each once.
ghost use Rattle.std.specs.Prelude.{◌≡◌, IfOk, OnOk};
ghost use Rattle.cdi_problems.specs.PlaceKeys as spec;
ghost use Rattle.cdi_problems.specs.Places.{with_place, once as each_once};

use crate::place_key::{PlaceKey, key_of};
use cdi_base::{Place, Seq};
use std::alloc::{AllocError, Global};
use std::collections::HashSet;

/// Adds a place, if it doesn't stand there already.
fn add_once(
    place: &Place,
    known: &mut HashSet<PlaceKey>,
    listed: &mut Seq<Place>,
) -> Result<(), AllocError>
    requires { spec.HasPlaces listed.old known.old }
    ensures listed { OnOk result (listed.new ≡ with_place listed.old place.now) }
    ensures known { OnOk result (spec.HasPlaces listed.new known.new) }
{
    let key = key_of(place);
    if known.contains(&key) {
        return Ok(());
    }
    known.insert(key)?;
    listed.push(*place)?;
    Ok(())
}

/// Each place once, where it stands first. It takes time in proportion to the number of places.
pub fn once(alloc: Global, places: &[Place]) -> Result<Seq<Place>, AllocError>
    ensures { IfOk result (λ listed. listed ≡ each_once places.now) }
{
    let mut known = HashSet::new(alloc);
    let mut listed = Seq::empty(alloc);
    for place in places {
        add_once(place, &mut known, &mut listed)?;
    }
    Ok(listed)
}
