//! How an instance comes to the context or the temporaries that own it, and leaves them.
ghost use Rattle.std.specs.Prelude.{◌≡◌, IsErr, IsSome, OnOk, OnErr};
ghost use Rattle.cdi_store.specs.Live.{owner_at, with_leaving, with_ready};
ghost use Rattle.cdi_machine.specs.World.{with_instances};
ghost use Rattle.cdi_world.specs.Reached.{with_home, without_context_home, without_home};

use super::World;
use crate::named;
use cdi_contexts::Held;
use cdi_store::numbered::{instance_in, leave_in, settle_in};
use cdi_store::{Component, Owner};
use std::alloc::AllocError;

impl World {
    /// Its context or the temporaries have the instance, if they own it. On an error nothing
    /// changes.
    pub(super) fn take_home(&mut self, number: u32) -> Result<(), AllocError>
        ensures ok { OnOk result (self.new ≡ with_home number self.old) }
        ensures err { OnErr result (self.new ≡ self.old) }
    {
        let Some(instance) = instance_in(&self.store, number) else {
            return Ok(());
        };
        match (instance.component, &instance.owner) {
            (Component::Bean(bean), Owner::Context(context)) => {
                named::put_in(&mut self.contexts, context, bean, Held::Is(number))
            }
            (_, Owner::Borrower) => self.temporaries.add(number),
            _ => Ok(()),
        }
    }

    /// Its context and the temporaries have the instance no longer.
    pub(super) fn leave_home(&mut self, number: u32)
        ensures { self.new ≡ without_home number self.old }
    {
        let Some(instance) = instance_in(&self.store, number) else {
            return;
        };
        match (instance.component, &instance.owner) {
            (Component::Bean(bean), Owner::Context(context)) => {
                named::leave_in(&mut self.contexts, context, bean);
            }
            (_, Owner::Borrower) => self.temporaries.forget(number, self.alloc),
            _ => {}
        }
    }

    /// Its context has the instance no longer.
    pub(super) fn leave_context(&mut self, number: u32)
        ensures { self.new ≡ without_context_home number self.old }
    {
        let Some(instance) = instance_in(&self.store, number) else {
            return;
        };
        if let (Component::Bean(bean), Owner::Context(context)) = (
            instance.component,
            &instance.owner,
        ) {
            named::leave_in(&mut self.contexts, context, bean);
        }
    }

    /// The instance is ready, and its owner has it. Memory can be wanting only if its owner is a
    /// live instance. On an error nothing changes.
    pub(super) fn set_ready(&mut self, number: u32) -> Result<(), AllocError>
        ensures ok { OnOk result (self.new ≡ with_instances (with_ready number) self.old) }
        ensures err { OnErr result (self.new ≡ self.old) }
        ensures memory { IsErr result → IsSome (owner_at number self.old.instances) }
    {
        settle_in(&mut self.store, number)
    }

    /// The destruction of the instance has begun, and its owner has it no longer.
    pub(super) fn set_leaving(&mut self, number: u32)
        ensures { self.new ≡ with_instances (with_leaving number) self.old }
    {
        leave_in(&mut self.store, number);
    }
}
