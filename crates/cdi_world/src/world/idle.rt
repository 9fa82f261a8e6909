//! Whether an instance is in use.
ghost use Rattle.std.specs.Prelude.{◌≡◌};
ghost use Rattle.cdi_machine.specs.DestroyAct.{any_belongs, any_target, belongs, dependent_of};
ghost use Rattle.cdi_machine.specs.World.{instance_at};

use super::World;
use cdi_store::numbered::instance_in;
use cdi_store::{Owner, Phase};

impl World {
    /// Whether an instance, or what it owns, and whose destruction hasn't begun, is the target of an invocation.
    pub(super) fn is_target(&self, number: u32) -> bool
        ensures { result ≡ any_target self.now self.now.invocations number }
    {
        for invocation in self.invocations.outermost_first() {
            if self.belongs(invocation.target(), number) {
                return true;
            }
        }
        false
    }

    /// Whether an instance, or what it owns, and whose destruction hasn't begun, has a running body.
    pub(super) fn has_body(&self, number: u32) -> bool
        ensures { result ≡ any_belongs self.now self.now.bodies number }
    {
        for target in self.bodies.outermost_first() {
            if self.belongs(*target, number) {
                return true;
            }
        }
        false
    }

    /// Whether an instance is another one, or owned by it, directly or through others (Jakarta CDI 4.0, *Dependent objects*).
    fn belongs(&self, number: u32, to: u32) -> bool
        ensures { result ≡ belongs number self.now number to }
    {
        let mut at = number;
        for _step in 0..number {
            if at == to {
                return true;
            }
            let Some(owner) = self.owner_of(at) else {
                return false;
            };
            at = owner;
        }
        at == to
    }

    /// The number of the instance that owns a live one, unless its destruction has begun.
    fn owner_of(&self, number: u32) -> Option<u32>
        ensures { result ≡ dependent_of (instance_at self.now number) }
    {
        let instance = instance_in(&self.store, number)?;
        match (instance.phase, &instance.owner) {
            (Phase::New | Phase::Ready, Owner::Instance(owner)) => Some(*owner),
            _ => None,
        }
    }
}
