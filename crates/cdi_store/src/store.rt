//! The live instances of a container, each under a key.
ghost use Rattle.std.specs.Prelude.{◌≡◌, ◌≢◌, ◌+◌, ◌<◌, ◌≤◌, ◌^◌, ◌++◌, ◌∷◌, ◌↔◌, [], length, IfOk, OnOk, OnErr, IfSome, IsTrue, IsOk, IsSome, IsNone, Some, Err, IsSomeAnd, IfErr, false, ◌&&◌, map, option_map};
ghost use Rattle.std.specs.Option.{option_copied};
ghost use Rattle.cdi_base.specs.Maps.{at};
ghost use Rattle.cdi_store.specs.Live.{is_live, key_at, owner_at, reference_at};
ghost use Rattle.cdi_store.specs.Live.{for_owner, in_phase, with_dependent, without_dependent};
ghost use Rattle.cdi_store.specs.Live.{with_ready, with_leaving, with_owner};
ghost use Rattle.cdi_store.specs.Live.{with_newborn, with_field, with_value, with_reference, without_instance};
ghost use Rattle.cdi_store.specs.Owned.{AreOwned, dependents_in};
ghost use Rattle.cdi_store.specs.Slots.{IsOrderly};

use crate::changes::{
    hold_in, put_dependent_last_in, refer_in, remove_dependent_from, set_in, set_owner_in,
    set_phase_in,
};
use crate::errors::{ChangeError, MakeError, Stale};
use crate::instance::{Component, Instance, Owner, Phase};
use crate::key::Key;
use crate::number_index::NumberIndex;
use crate::references::{Reference, References};
use cdi_base::{Fields, Name, Seq, Value};
use slab::Slab;
use std::alloc::{AllocError, Global};
use std::marker::Model;

/// The live instances of a container, each under a number of its own and in a slot, which contracts see as the
/// instances by their numbers, the slots by the same numbers, and the next number. Slots are used again, so that there are
/// no more of them than instances that lived at one time; a number is never used again.
#[derive(Drop)]
pub struct Store {
    /// The slot of each live instance.
    numbers: NumberIndex,
    slots: Slab<Instance>,
    /// The number of the next instance; past the greatest `u32`, no number is left.
    next: u64,
    alloc: Global,
}

impl Model for Store {
    ghost use Rattle.cdi_store.specs.Live.{Kept};

    ghost Value = { Kept };

    ghost use Rattle.cdi_store.specs.Slots.{kept_in, IsKept};

    ghost view = { λ s. kept_in s.slots.slots s.numbers s.next };

    ghost invariant = { λ s. IsKept s.slots.slots s.numbers s.next };
}

impl Store {
    /// A store with no instance, whose first number is 1.
    pub fn new(alloc: Global) -> Store
        ensures { result ≡ record { instances = []; slots = []; next = 1 } }
    {
        Store::starting_at(alloc, 1)
    }

    /// A store with no instance, and with this first number.
    pub fn starting_at(alloc: Global, number: u32) -> Store
        requires { number ≢ 0 }
        ensures { result ≡ record { instances = []; slots = []; next = number } }
    {
        Store {
            numbers: NumberIndex::new(alloc),
            slots: Slab::new(alloc),
            next: u64::from(number),
            alloc,
        }
    }

    /// How many instances live.
    pub fn len(&self) -> usize
        ensures { result ≡ length self.now.instances }
    {
        self.numbers.len()
    }

    /// Whether no instance lives.
    pub fn is_empty(&self) -> bool
        ensures { IsTrue result ↔ (length self.now.instances ≡ 0) }
    {
        self.numbers.is_empty()
    }

    /// The number of the next instance. There is none once 4,294,967,295 has been given out.
    pub fn next_number(&self) -> Option<u32>
        ensures left { IsSome result ↔ (self.now.next < 2 ^ 32) }
        ensures number { IfSome result (λ number. number ≡ self.now.next) }
    {
        if self.next > u64::from(u32::MAX) {
            return None;
        }
        Some(self.next as u32)
    }

    /// The key of the live instance with a number, if there is one.
    pub fn key(&self, number: u32) -> Option<Key>
        ensures key { result ≡ key_at self.now number }
        ensures live { IsSome result ↔ IsSome (at self.now.instances number) }
    {
        let slot = self.numbers.get(number)?;
        Some(Key { slot, number })
    }

    /// Whether a key is that of a live instance.
    fn is_live(&self, key: Key) -> bool
        ensures { result ≡ is_live self.now key }
    {
        match self.numbers.get(key.number) {
            Some(slot) => slot == key.slot,
            None => false,
        }
    }

    /// Makes an instance in phase New, under the next number and in a slot of its own. No number is left once
    /// 4,294,967,295 has been given out, whatever memory there is. On an error nothing changes, and what was handed in
    /// is dropped.
    pub fn make(
        &mut self,
        component: Component,
        owner: Owner,
        fields: Fields,
    ) -> Result<Key, MakeError>
        ensures number { IfOk result (λ key. key.number ≡ self.old.next) }
        ensures instances { OnOk result (self.new.instances
            ≡ with_newborn self.old.next component owner fields self.old.instances) }
        ensures slots { IfOk result (λ key. self.new.slots
            ≡ self.old.slots ++ (self.old.next, key.slot) ∷ []) }
        ensures next { OnOk result (self.new.next ≡ self.old.next + 1) }
        ensures live { IfOk result (λ key. IsTrue (is_live self.new key)) }
        ensures numbers_out { (result ≡ Err MakeError.NumbersOut) ↔ (2 ^ 32 ≤ self.old.next) }
        ensures err { OnErr result (self.new ≡ self.old) }
    {
        let Some(number) = self.next_number() else {
            return Err(MakeError::NumbersOut);
        };
        self.slots.reserve(1)?;
        self.numbers.push(number, self.slots.vacant_key())?;
        let slot = self.slots.insert_reserved(Instance {
            component,
            owner,
            phase: Phase::New,
            fields,
            references: References::new(self.alloc),
            value: Value::Null,
            dependents: Seq::empty(self.alloc),
        });
        self.next += 1;
        Ok(Key { slot, number })
    }

    /// A live instance.
    pub fn instance(&self, key: Key) -> Result<&Instance, Stale>
        ensures live { IsOk result ↔ IsTrue (is_live self.now key) }
        ensures found { IfOk result (λ instance.
            at self.now.instances key.number ≡ Some instance.now) }
    {
        if !self.is_live(key) {
            return Err(Stale);
        }
        Ok(&self.slots[key.slot])
    }

    /// The live instance with a number, found by one look.
    pub(crate) fn with_number(&self, number: u32) -> Option<&Instance>
        ensures { option_copied result ≡ at self.now.instances number }
    {
        let slot = self.numbers.get(number)?;
        self.slots.get(slot)
    }

    /// The fields of a live instance.
    pub fn fields(&self, key: Key) -> Result<&Fields, Stale>
        ensures live { IsOk result ↔ IsTrue (is_live self.now key) }
        ensures found { IfOk result (λ fields.
            IsSomeAnd (at self.now.instances key.number) (λ o. o.fields ≡ fields.now)) }
    {
        let instance = self.instance(key)?;
        Ok(&instance.fields)
    }

    /// The numbers of the dependent objects of a live instance, in the order of their adoption.
    pub fn dependents(&self, key: Key) -> Result<&[u32], Stale>
        ensures live { IsOk result ↔ IsTrue (is_live self.now key) }
        ensures found { IfOk result (λ numbers.
            IsSomeAnd (at self.now.instances key.number) (λ o. o.dependents ≡ numbers.now)) }
    {
        let instance = self.instance(key)?;
        Ok(instance.dependents.as_slice())
    }

    /// The key of the live instance that owns a live instance, if one does.
    pub fn owner(&self, key: Key) -> Result<Option<Key>, Stale>
        ensures live { IsOk result ↔ IsTrue (is_live self.now key) }
        ensures number { IfOk result (λ owner.
            option_map (λ k. k.number) owner ≡ owner_at key.number self.now.instances) }
        ensures owner_lives { IfOk result (λ owner.
            IfSome owner (λ k. IsTrue (is_live self.now k))) }
    {
        match &self.instance(key)?.owner {
            Owner::Instance(number) => Ok(self.key(*number)),
            _ => Ok(None),
        }
    }

    /// Takes a live instance out of the store and gives it out. Its number is never given again. On an error nothing
    /// changes.
    pub fn free(&mut self, key: Key) -> Result<Instance, Stale>
        ensures live { IsOk result ↔ IsTrue (is_live self.old key) }
        ensures freed { IfOk result (λ o. at self.old.instances key.number ≡ Some o) }
        ensures ok { OnOk result (self.new ≡ without_instance key.number self.old) }
        ensures err { OnErr result (self.new ≡ self.old) }
    {
        if !self.is_live(key) {
            return Err(Stale);
        }
        self.numbers.remove(key.number);
        Ok(self.slots.remove(key.slot))
    }

    /// Gives a field of a live instance another value. A field that isn't there changes nothing; nor does an error.
    pub fn set(&mut self, key: Key, field: Name, value: Value) -> Result<(), Stale>
        ensures live { IsOk result ↔ IsTrue (is_live self.old key) }
        ensures ok { OnOk result (self.new ≡ record self.old {
          instances = with_field key.number field value self.old.instances;
        }) }
        ensures err { OnErr result (self.new ≡ self.old) }
    {
        if !self.is_live(key) {
            return Err(Stale);
        }
        set_in(&mut self.slots, key.slot, field, value);
        Ok(())
    }

    /// Gives a live instance, a product, its value. On an error nothing changes.
    pub fn hold(&mut self, key: Key, value: Value) -> Result<(), Stale>
        ensures live { IsOk result ↔ IsTrue (is_live self.old key) }
        ensures ok { OnOk result (self.new ≡ record self.old {
          instances = with_value key.number value self.old.instances;
        }) }
        ensures err { OnErr result (self.new ≡ self.old) }
    {
        if !self.is_live(key) {
            return Err(Stale);
        }
        hold_in(&mut self.slots, key.slot, value);
        Ok(())
    }

    /// Gives an injected field of a live instance a reference. Memory can be wanting only where the field has none yet.
    /// On an error nothing changes.
    pub fn refer(&mut self, key: Key, field: Name, reference: Reference) -> Result<(), ChangeError>
        ensures stale { (result ≡ Err ChangeError.Stale) ↔ (is_live self.old key ≡ false) }
        ensures memory { result ≡ Err ChangeError.Memory
            → IsNone (reference_at key.number field self.old.instances) }
        ensures ok { OnOk result (self.new ≡ record self.old {
          instances = with_reference key.number field reference self.old.instances;
        }) }
        ensures err { OnErr result (self.new ≡ self.old) }
    {
        if !self.is_live(key) {
            return Err(ChangeError::Stale);
        }
        refer_in(&mut self.slots, key.slot, field, reference)?;
        Ok(())
    }

    /// Ends the creation of a live instance: it is ready, and becomes the last dependent of its owner, if that is a live
    /// instance; only there memory can be wanting (Jakarta CDI 4.0, *Dependent objects*). On an error nothing changes.
    pub fn settle(&mut self, key: Key) -> Result<(), ChangeError>
        ensures stale { (result ≡ Err ChangeError.Stale) ↔ (is_live self.old key ≡ false) }
        ensures memory { result ≡ Err ChangeError.Memory
            → IsSome (owner_at key.number self.old.instances) }
        ensures ok { OnOk result (self.new ≡ record self.old {
          instances = with_ready key.number self.old.instances;
        }) }
        ensures err { OnErr result (self.new ≡ self.old) }
    {
        self.join_owner(key)?;
        self.set_phase(key, Phase::Ready);
        Ok(())
    }

    /// Begins the destruction of a live instance: it is leaving, and its owner has it no longer (Jakarta CDI 4.0,
    /// *Destruction of objects with scope @Dependent*). On an error nothing changes.
    pub fn leave(&mut self, key: Key) -> Result<(), Stale>
        ensures live { IsOk result ↔ IsTrue (is_live self.old key) }
        ensures ok { OnOk result (self.new ≡ record self.old {
          instances = with_leaving key.number self.old.instances;
        }) }
        ensures err { OnErr result (self.new ≡ self.old) }
    {
        self.leave_owner(key)?;
        self.set_phase(key, Phase::Leaving);
        Ok(())
    }

    /// Gives an instance that no live instance owns an owner, whose last dependent it becomes (Jakarta CDI 4.0, *Dependent
    /// objects*). `Stale` if either key isn't that of a live instance; else memory can be wanting. On an error nothing
    /// changes.
    pub fn adopt(&mut self, owner: Key, key: Key) -> Result<(), ChangeError>
        requires { IsTrue (is_live self.old key) → owner_at key.number self.old.instances ≡ None }
        ensures stale { (result ≡ Err ChangeError.Stale)
            ↔ ((is_live self.old owner && is_live self.old key) ≡ false) }
        ensures ok { OnOk result (self.new ≡ record self.old {
          instances
              = with_owner key.number (Owner.Instance owner.number) self.old.instances;
        }) }
        ensures err { OnErr result (self.new ≡ self.old) }
    {
        if !self.is_live(owner) {
            return Err(ChangeError::Stale);
        }
        if !self.is_live(key) {
            return Err(ChangeError::Stale);
        }
        put_dependent_last_in(&mut self.slots, owner.slot, key.number, self.alloc)?;
        set_owner_in(&mut self.slots, key.slot, Owner::Instance(owner.number));
        Ok(())
    }

    /// Takes a live instance out of the dependents of an owner: that has it no longer (Jakarta CDI 4.0, *Dependent objects*).
    /// One that isn't among them stays as it is. `Stale` if either key isn't that of a live instance; nothing changes then.
    pub fn release(&mut self, owner: Key, key: Key) -> Result<(), Stale>
        ensures live { IsOk result ↔ IsTrue (is_live self.old owner && is_live self.old key) }
        ensures ok { OnOk result (self.new ≡ record self.old {
          instances = without_dependent
              key.number (Owner.Instance owner.number) self.old.instances;
        }) }
        ensures err { OnErr result (self.new ≡ self.old) }
    {
        if !self.is_live(owner) {
            return Err(Stale);
        }
        if !self.is_live(key) {
            return Err(Stale);
        }
        remove_dependent_from(&mut self.slots, Some(owner), key.number, self.alloc);
        Ok(())
    }

    /// The numbers of the live instances, ascending.
    pub fn numbers(&self, alloc: Global) -> Result<Vec<u32>, AllocError>
        ensures { IfOk result (λ numbers. numbers.items ≡ map (λ p. p.0) self.now.instances) }
    {
        self.numbers.numbers(alloc)
    }

    /// The numbers of the live instances rise and are below the next one, and no two instances have one slot. A call does
    /// nothing: its contract is the law.
    pub fn law_numbers(&self)
        ensures { IsOrderly self.now }
    {
        let _next = self.next;
    }

    /// No number stands twice among the dependents of all live instances, a live instance stands only among those of its
    /// owner, and each that stands there is at least 1 and below the next number. A call does nothing: its contract is the law.
    pub fn law_dependents(&self)
        ensures { AreOwned self.now.instances self.now.next }
    {
        let _next = self.next;
    }

    /// An instance has at most 4,294,967,295 dependents. A call does nothing: its contract is the law.
    pub fn law_few(&self, number: u32)
        ensures { length (dependents_in (at self.now.instances number)) < 2 ^ 32 }
    {
        let _next = self.next;
    }

    /// Makes a live instance the last dependent of the live instance that owns it, if one does.
    fn join_owner(&mut self, key: Key) -> Result<(), ChangeError>
        ensures stale { (result ≡ Err ChangeError.Stale) ↔ (is_live self.old key ≡ false) }
        ensures memory { result ≡ Err ChangeError.Memory
            → IsSome (owner_at key.number self.old.instances) }
        ensures ok { OnOk result (self.new ≡ record self.old {
          instances = for_owner
              (at self.old.instances key.number) (with_dependent key.number) self.old.instances;
        }) }
        ensures err { OnErr result (self.new ≡ self.old) }
    {
        match self.owner(key)? {
            Some(owner) => {
                put_dependent_last_in(&mut self.slots, owner.slot, key.number, self.alloc)?;
                Ok(())
            }
            None => Ok(()),
        }
    }

    /// Takes a live instance out of the dependents of the live instance that owns it, if one does.
    fn leave_owner(&mut self, key: Key) -> Result<(), Stale>
        ensures live { IsOk result ↔ IsTrue (is_live self.old key) }
        ensures ok { OnOk result (self.new ≡ record self.old {
          instances = for_owner
              (at self.old.instances key.number) (without_dependent key.number) self.old.instances;
        }) }
        ensures err { OnErr result (self.new ≡ self.old) }
    {
        let owner = self.owner(key)?;
        remove_dependent_from(&mut self.slots, owner, key.number, self.alloc);
        Ok(())
    }

    fn set_phase(&mut self, key: Key, phase: Phase)
        requires { IsTrue (is_live self.old key) }
        ensures { self.new ≡ record self.old {
          instances = in_phase phase key.number self.old.instances;
        } }
    {
        set_phase_in(&mut self.slots, key.slot, phase);
    }
}
