//! Where the steps of one kind stand in a script.
ghost use Rattle.std.specs.Prelude.{◌≡◌, ◌++◌, Bool, List, drop, length, slice_get, IfOk};
ghost use Rattle.cdi_script.specs.Places as spec;
ghost use Rattle.cdi_script.specs.declared.step.Step.{Step as AnyStep};

use crate::step::Step;
use cdi_base::Seq;
use std::alloc::{AllocError, Global};

/// The places of the steps of one kind, those that are a catch or those that are none, and for each place how many of them stand before
/// it. So the next one, and the one behind so many, is found without going through the steps.
#[derive(Debug, Drop)]
pub(crate) struct Places {
    /// Ascending.
    places: Seq<usize>,
    /// One for each step, and one for the end.
    before: Seq<usize>,
}

impl Places {
    /// The places of the catch steps, or those of the others.
    pub(crate) fn of(alloc: Global, catches: bool, steps: &[Step]) -> Result<Places, AllocError>
        ensures { IfOk result (spec.ArePlaces catches steps.now) }
    {
        let mut places = Seq::empty(alloc);
        let mut before = Seq::empty(alloc);
        for (place, step) in steps.iter().enumerate() {
            before.push(places.len())?;
            if step.is_catch == catches {
                places.push(place)?;
            }
        }
        before.push(places.len())?;
        Ok(Places { places, before })
    }

    /// The place of the step of this kind that has so many of them between a place and itself, if there is one.
    pub(crate) fn nth_from(&self, place: usize, nth: usize) -> Option<usize>
        ensures { (catches : Bool) (steps : List AnyStep) → spec.ArePlaces catches steps self.now
            → result ≡ slice_get (spec.places_from catches place (drop place steps)) nth }
    {
        let before = *self.before.get(place)?;
        let count = self.places.len();
        if nth >= count || before >= count - nth {
            return None;
        }
        self.places.get(before + nth).copied()
    }
}
