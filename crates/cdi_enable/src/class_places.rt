//! The classes of the managed beans by their names.
ghost use Rattle.std.specs.Prelude.{◌≡◌, ℕ, nat_eq, IfOk};
ghost use Rattle.std.specs.HashMap.{get};
ghost use Rattle.cdi_enable.specs.Enablement.{bean_of_class};

use cdi_base::{Name, Seq};
use std::alloc::{AllocError, Global};
use std::collections::HashMap;
use std::marker::Model;

/// The classes of the managed beans, which are found by their names in constant time. Contracts see the list of the classes.
#[derive(Drop)]
pub(crate) struct ClassPlaces {
    classes: Seq<Name>,
    places: HashMap<Name, usize>,
}

impl Model for ClassPlaces {
    ghost use Rattle.std.specs.Prelude.{◌≡◌, ℕ, List, nat_eq};
    ghost use Rattle.std.specs.HashMap.{get};
    ghost use Rattle.cdi_enable.specs.Enablement.{bean_of_class};

    ghost Value = { List ℕ };

    ghost view = { λ p. p.classes };

    ghost invariant = { λ p. (class : ℕ)
        → get nat_eq p.places class ≡ bean_of_class p.classes class };
}

/// The place of the first of each class.
fn places_of(alloc: Global, classes: &[Name]) -> Result<HashMap<Name, usize>, AllocError>
    ensures { IfOk result (λ places. (class : ℕ)
        → get nat_eq places class ≡ bean_of_class classes.now class) }
{
    let mut places = HashMap::new(alloc);
    for (place, class) in classes.iter().enumerate() {
        if !places.contains_key(class) {
            places.insert(*class, place)?;
        }
    }
    Ok(places)
}

impl ClassPlaces {
    /// The classes of managed beans, in the order of the beans.
    pub(crate) fn build(alloc: Global, classes: Seq<Name>) -> Result<ClassPlaces, AllocError>
        ensures { IfOk result (λ places. places ≡ classes) }
    {
        let places = places_of(alloc, classes.as_slice())?;
        Ok(ClassPlaces { classes, places })
    }

    /// The managed bean of a class, by its index among the managed beans, if the class has one. If several have it, the first one
    /// counts.
    pub(crate) fn bean_of(&self, class: Name) -> Option<usize>
        ensures { result ≡ bean_of_class self.now class }
    {
        self.places.get(&class).copied()
    }
}
