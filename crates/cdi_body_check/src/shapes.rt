//! The shapes of registered bodies.
ghost use Rattle.std.specs.Prelude.{◌≡◌};
ghost use Rattle.std.specs.Option.{option_copied};
ghost use Rattle.cdi_bodies.specs.Table.{entries_of};
ghost use Rattle.cdi_body_check.specs.Shapes as spec;

use cdi_base::Name;
use cdi_bodies::{Bodies, Shape};

/// The shape of the body of a name, if one is registered under it.
#[tactic(auto, using(crate::proofs::Registered::place_within))]
pub fn shape_of(bodies: &Bodies, name: Name) -> Option<&Shape>
    ensures { option_copied result ≡ spec.shape_of (entries_of bodies.now) name }
{
    match bodies.find(name) {
        Some(body) => Some(bodies.shape(body)),
        None => None,
    }
}
