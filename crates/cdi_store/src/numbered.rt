//! The store by the numbers of its instances. A number that no live instance has changes nothing.
ghost use Rattle.std.specs.Prelude.{◌≡◌, ◌<◌, ◌+◌, ◌^◌, IsErr, IsSome, OnOk, OnErr};
ghost use Rattle.std.specs.Option.{option_copied};
ghost use Rattle.cdi_base.specs.Maps.{at};
ghost use Rattle.cdi_store.specs.Live.{owner_at, with_field, with_leaving, with_ready, with_reference};
ghost use Rattle.cdi_store.specs.Live.{with_newborn, with_value, without_instance};

use crate::instance::{Component, Instance, Owner};
use crate::references::Reference;
use crate::store::Store;
use cdi_base::{Fields, Name, Value};
use std::alloc::AllocError;

/// The live instance with a number.
pub fn instance_in(store: &Store, number: u32) -> Option<&Instance>
    ensures { option_copied result ≡ at store.now.instances number }
{
    store.with_number(number)
}

/// A new instance gets the next number. On an error nothing changes.
pub fn make_in(
    store: &mut Store,
    component: Component,
    owner: Owner,
    fields: Fields,
) -> Result<(), AllocError>
    requires { store.old.next < 2 ^ 32 }
    ensures instances { OnOk result (store.new.instances
        ≡ with_newborn store.old.next component owner fields store.old.instances) }
    ensures next { OnOk result (store.new.next ≡ store.old.next + 1) }
    ensures err { OnErr result (store.new ≡ store.old) }
{
    match store.make(component, owner, fields) {
        Ok(_) => Ok(()),
        Err(_) => Err(AllocError),
    }
}

/// Gives a field of the instance another value, if it is there.
pub fn set_in(store: &mut Store, number: u32, field: Name, value: Value)
    ensures { store.new ≡ record store.old {
      instances = with_field number field value store.old.instances;
    } }
{
    if let Some(key) = store.key(number) {
        let _ = store.set(key, field, value);
    }
}

/// Gives the instance, a product, its value.
pub fn hold_in(store: &mut Store, number: u32, value: Value)
    ensures { store.new ≡ record store.old {
      instances = with_value number value store.old.instances;
    } }
{
    if let Some(key) = store.key(number) {
        let _ = store.hold(key, value);
    }
}

/// Gives an injected field of the instance a reference, if the instance is there. Memory can be wanting only where
/// the field has none yet. On an error nothing changes.
pub fn refer_in(
    store: &mut Store,
    number: u32,
    field: Name,
    reference: Reference,
) -> Result<(), AllocError>
    ensures ok { OnOk result (store.new ≡ record store.old {
      instances = with_reference number field reference store.old.instances;
    }) }
    ensures err { OnErr result (store.new ≡ store.old) }
{
    let Some(key) = store.key(number) else {
        return Ok(());
    };
    match store.refer(key, field, reference) {
        Ok(()) => Ok(()),
        Err(_) => Err(AllocError),
    }
}

/// The instance is ready, and its owner has it. Memory can be wanting only if its owner is a live
/// instance. On an error nothing changes.
pub fn settle_in(store: &mut Store, number: u32) -> Result<(), AllocError>
    ensures ok { OnOk result (store.new ≡ record store.old {
      instances = with_ready number store.old.instances;
    }) }
    ensures err { OnErr result (store.new ≡ store.old) }
    ensures memory { IsErr result → IsSome (owner_at number store.old.instances) }
{
    let Some(key) = store.key(number) else {
        return Ok(());
    };
    match store.settle(key) {
        Ok(()) => Ok(()),
        Err(_) => Err(AllocError),
    }
}

/// The destruction of the instance has begun, and its owner has it no longer.
pub fn leave_in(store: &mut Store, number: u32)
    ensures { store.new ≡ record store.old {
      instances = with_leaving number store.old.instances;
    } }
{
    if let Some(key) = store.key(number) {
        let _ = store.leave(key);
    }
}

/// The instance is gone.
pub fn free_in(store: &mut Store, number: u32)
    ensures { store.new ≡ without_instance number store.old }
{
    if let Some(key) = store.key(number) {
        let _ = store.free(key);
    }
}
