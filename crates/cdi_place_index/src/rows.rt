//! Items by places.
ghost use Rattle.std.specs.Prelude.{◌≡◌, ◌++◌, ◌∷◌, [], OnOk, if◌then◌else◌};
ghost use Rattle.cdi_base.specs.declared.place.Place.{Place};
ghost use Rattle.cdi_place_index.specs.PlaceRows as spec;
ghost use Rattle.cdi_problems.specs.Places.{same_place};

use cdi_base::{Place, Seq};
use cdi_problems::{PlaceKey, key_of};
use std::alloc::{AllocError, Global};
use std::collections::HashMap;

/// Items by places, those at one place in the order in which they were added. An item is found, and one is added, in constant time.
#[derive(Drop)]
pub struct PlaceRows<T> {
    rows: HashMap<PlaceKey, Seq<T>>,
}

impl<T: Drop> PlaceRows<T> {
    /// No items.
    pub fn empty(alloc: Global) -> PlaceRows<T>
        ensures { (p : Place) → spec.row_at result p ≡ [] }
    {
        PlaceRows {
            rows: HashMap::new(alloc),
        }
    }

    /// Adds an item at the end of those at a place. The one error is [`AllocError`], if a growth was refused.
    pub fn add(&mut self, alloc: Global, place: &Place, item: T) -> Result<(), AllocError>
        ensures { OnOk result ((p : Place) → spec.row_at self.new p
            ≡ (if same_place place.now p then spec.row_at self.old p ++ item ∷ []
            else spec.row_at self.old p)) }
    {
        let key = key_of(place);
        if let Some(row) = self.rows.get_mut(&key) {
            row.push(item)?;
            return Ok(());
        }
        let mut row = Seq::empty(alloc);
        row.push(item)?;
        self.rows.insert(key, row)?;
        Ok(())
    }

    /// The items at a place.
    pub fn at(&self, place: &Place) -> &[T]
        ensures { result.now ≡ spec.row_at self.now place.now }
    {
        match self.rows.get(&key_of(place)) {
            Some(row) => row.as_slice(),
            None => &[],
        }
    }
}
