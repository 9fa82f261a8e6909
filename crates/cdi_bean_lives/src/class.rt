//! A class that is added to those of which is kept what they have.
ghost use Rattle.std.specs.Prelude.{◌≡◌, ◌≤◌, ◌^◌, length, IfOk, OnOk};
ghost use Rattle.cdi_bean_lives.specs.Lives as spec;
ghost use Rattle.cdi_numbered_plans.specs.Numbered as numbered;

use crate::own::own_life;
use cdi_base::Name;
use cdi_cache::Lookup;
use cdi_class_lives::ClassLives;
use cdi_deployment::Class;
use cdi_numbered_plans::Numbering;
use cdi_planner::Planner;
use cdi_resolve::Resolver;
use std::alloc::{AllocError, Global};

/// A class of which is kept what it has.
#[derive(Clone, Copy)]
pub(crate) struct KeptClass {
    /// Its place among those that are kept.
    pub(crate) place: usize,
    pub(crate) name: Name,
}

/// Whether a class has the methods that it inherits in the chains that they have above it.
fn inherits_methods(planner: &Planner<'_>, class: Name, above: &Option<KeptClass>) -> bool
    ensures { spec.InheritsIf planner.now class above.now result }
{
    match above {
        Some(above) => planner.have_same_chains(class, above.name),
        None => true,
    }
}

/// Adds a class below another one, or one that has no superclass, and gives its place.
pub(crate) fn add_class(
    alloc: Global,
    planner: &Planner<'_>,
    numbering: &Numbering<'_>,
    lookup: &mut Lookup<&Resolver>,
    lives: &mut ClassLives,
    above: Option<KeptClass>,
    class: &Class,
) -> Result<usize, AllocError>
    requires asks { numbered.AsksNumbered numbering.now lookup.old.now }
    requires few { length planner.now.chains.interceptors ≤ 2 ^ 32 }
    requires lives { spec.AreLives planner.now numbering.now lives.old }
    requires above { spec.IsKeptIfAny lives.old above }
    requires line { spec.IsLineBelow planner.now lives.old above class.now }
    ensures lives { OnOk result (spec.AreLives planner.now numbering.now lives.new) }
    ensures added { IfOk result (spec.IsClassAdded lives.old above class.now.name lives.new) }
    ensures kept { numbered.AsksNumbered numbering.now lookup.new.now }
{
    let inherits = inherits_methods(planner, class.name, &above);
    let own = own_life(alloc, planner, numbering, lookup, class, inherits)?;
    let place = lives.add(alloc, above.map(|above| above.place), inherits, own)?;
    Ok(place)
}
