//! Changes of the instance in one slot. A slot with no instance stays as it is.
ghost use Rattle.std.specs.Prelude.{◌≡◌, ◌++◌, ◌∷◌, [], IsSome, IsSomeAnd, IsOk, OnOk, OnErr};
ghost use Rattle.slab.specs.Slab.{get, SameValues};
ghost use Rattle.cdi_base.specs.Fields.{set};
ghost use Rattle.cdi_base.specs.Maps.{at, put};
ghost use Rattle.cdi_store.specs.Live.{all_but};
ghost use Rattle.cdi_store.specs.Slots.{Changes, ChangesAt};

use crate::dependents::{put_last, remove_from};
use crate::instance::{Instance, Owner, Phase};
use crate::key::Key;
use crate::references::Reference;
use cdi_base::{Name, Value};
use slab::Slab;
use std::alloc::{AllocError, Global};

/// Gives a field of the instance another value, if it is there.
pub(crate) fn set_in(slots: &mut Slab<Instance>, slot: usize, field: Name, value: Value)
    ensures { Changes slots.old slots.new slot
        (λ o. record o { fields = set o.fields field value }) }
{
    if let Some(instance) = slots.get_mut(slot) {
        instance.fields.set(field, value);
    }
}

/// Gives the instance, a product, its value.
pub(crate) fn hold_in(slots: &mut Slab<Instance>, slot: usize, value: Value)
    ensures { Changes slots.old slots.new slot (λ o. record o { value = value }) }
{
    if let Some(instance) = slots.get_mut(slot) {
        instance.value = value;
    }
}

/// Gives an injected field of the instance a reference. On an error nothing changes.
pub(crate) fn refer_in(
    slots: &mut Slab<Instance>,
    slot: usize,
    field: Name,
    reference: Reference,
) -> Result<(), AllocError>
    ensures ok { OnOk result (Changes slots.old slots.new slot
        (λ o. record o { references = put field reference o.references })) }
    ensures err { OnErr result (SameValues slots.old slots.new) }
    ensures there { IsSomeAnd (get slots.old slot) (λ o. IsSome (at o.references field))
        → IsOk result }
{
    match slots.get_mut(slot) {
        Some(instance) => instance.references.put(field, reference),
        None => Ok(()),
    }
}

/// Gives the instance another phase.
pub(crate) fn set_phase_in(slots: &mut Slab<Instance>, slot: usize, phase: Phase)
    ensures { Changes slots.old slots.new slot (λ o. record o { phase = phase }) }
{
    if let Some(instance) = slots.get_mut(slot) {
        instance.phase = phase;
    }
}

/// Gives the instance another owner.
pub(crate) fn set_owner_in(slots: &mut Slab<Instance>, slot: usize, owner: Owner)
    ensures { Changes slots.old slots.new slot (λ o. record o { owner = owner }) }
{
    if let Some(instance) = slots.get_mut(slot) {
        instance.owner = owner;
    }
}

/// Takes a dependent out of the instance's list.
fn remove_dependent_in(slots: &mut Slab<Instance>, slot: usize, number: u32, alloc: Global)
    ensures { Changes slots.old slots.new slot
        (λ o. record o { dependents = all_but number o.dependents }) }
{
    if let Some(instance) = slots.get_mut(slot) {
        remove_from(&mut instance.dependents, number, alloc);
    }
}

/// Takes a dependent out of the list of the instance with a key, if there is one.
pub(crate) fn remove_dependent_from(
    slots: &mut Slab<Instance>,
    key: Option<Key>,
    number: u32,
    alloc: Global,
)
    ensures { ChangesAt slots.old slots.new key
        (λ o. record o { dependents = all_but number o.dependents }) }
{
    if let Some(key) = key {
        remove_dependent_in(slots, key.slot, number, alloc);
    }
}

/// Puts a dependent at the end of the instance's list and takes it out of every other place there. On an error
/// nothing changes.
pub(crate) fn put_dependent_last_in(
    slots: &mut Slab<Instance>,
    slot: usize,
    number: u32,
    alloc: Global,
) -> Result<(), AllocError>
    ensures ok { OnOk result (Changes slots.old slots.new slot
        (λ o. record o { dependents = all_but number o.dependents ++ number ∷ [] })) }
    ensures err { OnErr result (SameValues slots.old slots.new) }
{
    match slots.get_mut(slot) {
        Some(instance) => put_last(&mut instance.dependents, number, alloc),
        None => Ok(()),
    }
}
