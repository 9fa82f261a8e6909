//! The slots of live instances by their numbers, in a list in which a number is mostly found at the first look.
ghost use Rattle.std.specs.Prelude.{◌≡◌, ◌<◌, ◌++◌, ◌∷◌, ◌↔◌, [], length, map, OnOk, OnErr, IfOk, IfSome, IsTrue, option_map};
ghost use Rattle.cdi_base.specs.Maps.{at, without};
ghost use Rattle.cdi_store.specs.Slots.{AreBelow};
ghost use Rattle.cdi_store.specs.NumberEntries.{AreAscending, AreAllBelow, IsPlaceOf, live_ones, pairs_in};

use std::alloc::{AllocError, Global};
use std::marker::Model;

/// A number that was given out. The slot is that of its instance, while that lives.
#[derive(Drop)]
struct Entry {
    number: u32,
    slot: Option<usize>,
}

/// Up to this many entries, those of instances that are gone stay where they are.
const FEW: usize = 16;

/// The slots of live instances by their numbers, which contracts see as pairs in the order of the numbers. An
/// entry stays a while after its instance is gone, so that most entries stand where their numbers say.
#[derive(Drop)]
pub(crate) struct NumberIndex {
    /// In the order of their numbers.
    entries: Vec<Entry>,
    /// How many of the instances live.
    live: usize,
}

impl Model for NumberIndex {
    ghost use Rattle.std.specs.Prelude.{ℕ};
    ghost use Rattle.cdi_base.specs.Maps.{Map};

    ghost Value = { Map ℕ };

    ghost use Rattle.cdi_store.specs.NumberEntries.{pairs_in, AreCounted};

    ghost view = { λ i. pairs_in i.entries.items };

    ghost invariant = { λ i. AreCounted i.entries.items i.live };
}

impl NumberIndex {
    /// No numbers.
    pub(crate) fn new(alloc: Global) -> NumberIndex
        ensures { result ≡ [] }
    {
        NumberIndex {
            entries: Vec::new(alloc),
            live: 0,
        }
    }

    /// How many numbers there are.
    pub(crate) fn len(&self) -> usize
        ensures { result ≡ length self.now }
    {
        self.live
    }

    /// Whether there is no number.
    pub(crate) fn is_empty(&self) -> bool
        ensures { IsTrue result ↔ (length self.now ≡ 0) }
    {
        self.live == 0
    }

    /// The slot of a number.
    pub(crate) fn get(&self, number: u32) -> Option<usize>
        ensures { result ≡ at self.now number }
    {
        let place = place_of(&self.entries, number)?;
        self.entries[place].slot
    }

    /// Puts a number above all others, with its slot. On an error nothing changes.
    pub(crate) fn push(&mut self, number: u32, slot: usize) -> Result<(), AllocError>
        requires { AreBelow number self.old }
        ensures ok { OnOk result (self.new ≡ self.old ++ (number, slot) ∷ []) }
        ensures err { OnErr result (self.new ≡ self.old) }
    {
        clear_above(&mut self.entries, number);
        self.entries.push(Entry {
            number,
            slot: Some(slot),
        })?;
        self.live += 1;
        Ok(())
    }

    /// Takes a number out, if it is there. Once more entries are gone than live, they go, so that the memory is in
    /// proportion to what lives.
    pub(crate) fn remove(&mut self, number: u32)
        ensures { self.new ≡ without number self.old }
    {
        let Some(place) = place_of(&self.entries, number) else {
            return;
        };
        if self.entries[place].slot.is_none() {
            return;
        }
        self.entries[place].slot = None;
        self.live -= 1;
        sweep(&mut self.entries, self.live);
    }

    /// The numbers, ascending.
    pub(crate) fn numbers(&self, alloc: Global) -> Result<Vec<u32>, AllocError>
        ensures { IfOk result (λ numbers. numbers.items ≡ map (λ p. p.0) self.now) }
    {
        self.entries.iter().filter_map(live_number).collect(alloc)
    }
}

/// The number of an entry whose instance lives.
fn live_number(entry: &Entry) -> Option<u32>
    ensures { result ≡ option_map (λ _. entry.now.number) entry.now.slot }
{
    match entry.slot {
        Some(_) => Some(entry.number),
        None => None,
    }
}

/// The place of the entry of a number, found at the first look unless entries after it were taken out.
fn place_of(entries: &[Entry], number: u32) -> Option<usize>
    requires { AreAscending entries.now }
    ensures { IsPlaceOf number entries.now result }
{
    match place_from_last(entries, number) {
        Some(place) if entries[place].number == number => Some(place),
        _ => second_look(entries, number),
    }
}

/// The place of the entry of a number, found at the second look unless entries before it were taken out.
fn second_look(entries: &[Entry], number: u32) -> Option<usize>
    requires { AreAscending entries.now }
    ensures { IsPlaceOf number entries.now result }
{
    match place_from_first(entries, number) {
        Some(place) if entries[place].number == number => Some(place),
        _ => searched_place(entries, number),
    }
}

/// The place that a number has if all numbers from the first one to it have entries.
fn place_from_first(entries: &[Entry], number: u32) -> Option<usize>
    ensures { IfSome result (λ place. place < length entries.now) }
{
    let place = number.checked_sub(entries.first()?.number)? as usize;
    if place < entries.len() {
        Some(place)
    } else {
        None
    }
}

/// The place of the entry of a number, found by halves.
#[inline(never)]
fn searched_place(entries: &[Entry], number: u32) -> Option<usize>
    requires { AreAscending entries.now }
    ensures { IsPlaceOf number entries.now result }
{
    entries
        .binary_search_by_key(&number, |entry| entry.number)
        .ok()
}

/// The place that a number has if all numbers from it to the last one have entries.
fn place_from_last(entries: &[Entry], number: u32) -> Option<usize>
    ensures { IfSome result (λ place. place < length entries.now) }
{
    let numbers_after = entries.last()?.number.checked_sub(number)?;
    entries.len().checked_sub(numbers_after as usize + 1)
}

/// Whether all entries have numbers below this one.
fn ends_below(entries: &[Entry], number: u32) -> bool
    requires { AreAscending entries.now }
    ensures { IsTrue result → AreAllBelow number entries.now }
{
    match entries.last() {
        Some(last) => last.number < number,
        None => true,
    }
}

/// Leaves no entry with this number or a higher one, where no live instance has such a number.
fn clear_above(entries: &mut Vec<Entry>, number: u32)
    requires ascending { AreAscending entries.old.items }
    requires below { AreBelow number (pairs_in entries.old.items) }
    ensures ascending { AreAscending entries.new.items }
    ensures below { AreAllBelow number entries.new.items }
    ensures pairs { pairs_in entries.new.items ≡ pairs_in entries.old.items }
{
    if ends_below(entries, number) {
        return;
    }
    keep_live(entries);
}

/// Takes out the entries whose instances are gone, once those are more than the live ones.
fn sweep(entries: &mut Vec<Entry>, live: usize)
    requires { AreAscending entries.old.items }
    ensures ascending { AreAscending entries.new.items }
    ensures pairs { pairs_in entries.new.items ≡ pairs_in entries.old.items }
{
    if entries.len() <= FEW || entries.len().saturating_sub(live) <= live {
        return;
    }
    keep_live(entries);
}

/// Takes out the entries whose instances are gone.
fn keep_live(entries: &mut Vec<Entry>)
    ensures { entries.new.items ≡ live_ones entries.old.items }
{
    entries.retain(|entry| entry.slot.is_some());
}
