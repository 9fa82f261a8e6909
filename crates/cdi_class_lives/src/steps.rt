//! The places of the steps that a class has of its direct superclass.
ghost use Rattle.std.specs.Prelude.{◌≡◌, filter, IfOk};
ghost use Rattle.cdi_class_lives.specs.Inheriting as spec;

use crate::codes::leaves_place;
use cdi_base::{Name, Seq};
use cdi_machine::Step;
use std::alloc::{AllocError, Global};

/// Whether a class that declares members of these names leaves an injected field or an initializer.
fn leaves_step(declared: &[Name], step: &Step) -> bool
    ensures { result ≡ spec.leaves_step declared.now step.now }
{
    match step {
        Step::Initialize { code, .. } => leaves_place(declared, code.place()),
        _ => true,
    }
}

/// Whether such a class leaves the one at a place. What isn't there is left.
fn leaves_at(declared: &[Name], kept: &[Step], place: u32) -> bool
    ensures { result ≡ spec.leaves_at declared.now kept.now place }
{
    match kept.get(place as usize) {
        Some(step) => leaves_step(declared, step),
        None => true,
    }
}

/// Those of these places whose steps such a class leaves.
pub(crate) fn left_places(
    alloc: Global,
    kept: &[Step],
    places: &[u32],
    declared: &[Name],
) -> Result<Seq<u32>, AllocError>
    ensures { IfOk result (λ left. left
        ≡ filter (spec.leaves_at declared.now kept.now) places.now) }
{
    let mut left = Seq::empty(alloc);
    for place in places {
        if leaves_at(declared, kept, *place) {
            left.push(*place)?;
        }
    }
    Ok(left)
}
