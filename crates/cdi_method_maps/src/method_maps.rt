//! The maps of the methods of many classes.
ghost use Rattle.std.specs.Prelude.{◌≡◌, ℕ, Option, None, Some, if◌then◌else◌, IfOk};
ghost use Rattle.std.specs.Option.{option_copied, option_or};
ghost use Rattle.cdi_shared_maps.specs.Maps.{value_in};
ghost use Rattle.cdi_method_maps.specs.KeptMethods.{ArePlaces};
ghost use Rattle.cdi_method_maps.specs.NamedMethods.{method_named, is_among};

use crate::kept_methods::KeptMethods;
use crate::named_method::NamedMethod;
use cdi_base::{Name, Seq};
use cdi_machine::Method;
use cdi_shared_maps::SharedMaps;
use std::alloc::{AllocError, Global};

/// The business methods of many classes by their names: each class has a map, which begins as that of its superclass (Jakarta CDI
/// 4.0, *Inheritance of member-level metadata*). A map has a number, the first one 0. It tells the place of a method by the key of
/// its name, and the methods are kept once.
pub struct MethodMaps {
    kept: KeptMethods,
    maps: SharedMaps,
    ghost places: { (map : ℕ) → ArePlaces kept (value_in maps map) },
}

/// In one call, so that the proof of each function that owns one has one step here, and not one for each of its parts.
impl Drop for MethodMaps {
    fn drop(self) {
        let MethodMaps {
            kept: _kept,
            maps: _maps,
        } = self;
    }
}

impl MethodMaps {
    ghost use Rattle.cdi_method_maps.specs.MethodMaps.{method_at, IsMap, KeepsMaps};

    /// No maps.
    pub fn new(alloc: Global) -> Result<MethodMaps, AllocError>
        ensures { IfOk result (λ maps. (map : Option ℕ) (name : ℕ)
            → method_at maps map name ≡ None) }
    {
        Ok(MethodMaps {
            kept: KeptMethods::new(alloc),
            maps: SharedMaps::new(alloc)?,
        })
    }

    /// The method of a name by a map, in constant time (Jakarta CDI 4.0, *Container invocations and interception*); none without a
    /// map, if there is no such map, and if the map has none of this name.
    pub fn get(&self, map: Option<usize>, name: Name) -> Option<&Method>
        ensures { option_copied result ≡ method_at self.now map name }
    {
        let map = map?;
        let key = self.kept.key(name)?;
        let place = self.maps.get(map, key)?;
        self.kept.get(place)
    }

    /// Adds a map, and gives its number. It has what its origin has, but for the hidden names, of which it has none, and for the
    /// names of these methods: of those of one name the first counts (Jakarta CDI 4.0, *Inheritance of member-level metadata*). An
    /// origin that is not there counts as one that has nothing. The error is that there is no memory, or that a method would be the
    /// 4,294,967,297th; then no map is added or changed, though some of the methods may be kept.
    pub fn add(
        &mut self,
        alloc: Global,
        origin: Option<usize>,
        hidden: &[Name],
        methods: Seq<NamedMethod>,
    ) -> Result<usize, AllocError>
        ensures added { IfOk result (IsMap self.new) }
        ensures methods { IfOk result (λ map. (name : ℕ) → method_at self.new (Some map) name
            ≡ option_or (method_named name methods)
            (if is_among name hidden.now then None else method_at self.old origin name)) }
        ensures kept { KeepsMaps self.old self.new }
    {
        let mut changes = self.kept.put_all(alloc, methods)?;
        self.kept.hide(hidden, &mut changes)?;
        self.maps.add(alloc, origin, changes.as_slice())
    }
}
