//! What is kept once, and the places of it.
ghost use Rattle.std.specs.Prelude.{◌≡◌, ◌≤◌, ◌++◌, length, map, slice_get, true, Some, OnOk};
ghost use Rattle.cdi_class_lives.specs.Kept.{are_below};

use cdi_base::Seq;
use std::alloc::AllocError;

/// Adds items behind those that are kept, and their places behind these. A place has 32 bits: there is no memory for more items.
pub(crate) fn keep_all<T: Drop>(
    kept: &mut Seq<T>,
    items: Seq<T>,
    places: &mut Seq<u32>,
) -> Result<(), AllocError>
    ensures kept { OnOk result (kept.new ≡ kept.old ++ items) }
    ensures places { OnOk result (map (slice_get kept.new) places.new
        ≡ map (slice_get kept.new) places.old ++ map Some items) }
    ensures below { OnOk result (are_below (length kept.old) places.old ≡ true
        → are_below (length kept.new) places.new ≡ true) }
    ensures grown { length kept.old ≤ length kept.new }
{
    for item in items.into_vec() {
        let Ok(place) = u32::try_from(kept.len()) else {
            return Err(AllocError);
        };
        kept.push(item)?;
        places.push(place)?;
    }
    Ok(())
}
