//! What the readers of scripts share: the names and numbers that stand in them, and their lists.
ghost use Rattle.std.specs.Prelude.{◌≡◌, ℕ, List, length, Bool, Err, IfOk};
ghost use Rattle.cdi_base.specs.Name.{Extends};
ghost use Rattle.cdi_base.specs.Reading.{Gives};
ghost use Rattle.serde_json.specs.Data.{Data};
ghost use Rattle.serde_json.specs.View.{view, items_view};
ghost use Rattle.cdi_script.specs.Reading as spec;

use crate::fault::ScriptFault;
use cdi_base::{Name, Names, OrMemory, Seq, TableFull, is_name};
use serde_json::Value as Json;
use std::alloc::Global;

/// The most that a parameter, an answer or a local is counted to.
const MAX_COUNT: u64 = 65_535;

/// The fault of a value that is no step.
pub(crate) fn bad<T>() -> Result<T, OrMemory<ScriptFault>>
    ensures { result ≡ Err (OrMemory.Fault ScriptFault.BadStep) }
{
    Err(OrMemory::Fault(ScriptFault::BadStep))
}

pub(crate) fn is_named(value: &Json) -> bool
    ensures { result ≡ spec.is_named (view value.now) }
{
    match value {
        Json::String(text) => is_name(text.as_str()),
        _ => false,
    }
}

#[tactic(auto, unfolding(crate::specs::Reading::named))]
fn named(names: &mut Names, text: &str) -> Result<Name, OrMemory<ScriptFault>>
    ensures gives { Gives (λ name. (name, names.new)) result (spec.named names.old text.now) }
    ensures kept { Extends names.old names.new }
{
    if !is_name(text) {
        return bad();
    }
    match names.intern(text) {
        Ok(name) => Ok(name),
        Err(OrMemory::Fault(TableFull)) => Err(OrMemory::Fault(ScriptFault::Full)),
        Err(OrMemory::Memory) => Err(OrMemory::Memory),
    }
}

/// The name that a value is, which goes into the table.
pub(crate) fn name_of(names: &mut Names, value: &Json) -> Result<Name, OrMemory<ScriptFault>>
    ensures gives { Gives (λ name. (name, names.new)) result
        (spec.name_of names.old (view value.now)) }
    ensures kept { Extends names.old names.new }
{
    match value {
        Json::String(text) => named(names, text.as_str()),
        _ => bad(),
    }
}

/// The number of a parameter, an answer or a local that a value is: 0 to [`MAX_COUNT`].
pub(crate) fn count_of(value: &Json) -> Option<u32>
    ensures { result ≡ spec.count_of (view value.now) }
{
    match value.as_u64() {
        Some(count) => {
            if count <= MAX_COUNT {
                Some(count as u32)
            } else {
                None
            }
        }
        None => None,
    }
}

pub(crate) fn is_count(value: &Json) -> bool
    ensures { result ≡ spec.is_count (view value.now) }
{
    count_of(value).is_some()
}

/// What lists in a script have as their items.
pub(crate) trait Item: Sized + Drop {
    ghost test: { Data → Bool };

    ghost form: { List (List ℕ) → Data → spec.Reads Self };

    /// Whether a value is such an item.
    fn is_in(value: &Json) -> bool
        ensures { result ≡ test (view value.now) };

    /// The item that a value is.
    fn read(alloc: Global, names: &mut Names, value: &Json) -> Result<Self, OrMemory<ScriptFault>>
        ensures gives { Gives (λ x. (x, names.new)) result
            (form names.old (view value.now)) }
        ensures kept { Extends names.old names.new };
}

/// Whether each of these values is such an item.
pub(crate) fn are_all<T: Item>(values: &[Json]) -> bool
    ensures { result ≡ spec.all_items T.test (items_view values.now) }
{
    values.iter().all(|value| T::is_in(value))
}

/// Whether a value is an array of such items.
pub(crate) fn is_array_of<T: Item>(value: &Json) -> bool
    ensures { result ≡ spec.is_array_of T.test (view value.now) }
{
    match value {
        Json::Array(items) => are_all::<T>(items.as_slice()),
        _ => false,
    }
}

/// The items that values are, one after another.
pub(crate) fn each<T: Item>(
    alloc: Global,
    names: &mut Names,
    items: &[Json],
) -> Result<Seq<T>, OrMemory<ScriptFault>>
    ensures gives { Gives (λ xs. (xs, names.new)) result
        (spec.each T.form names.old (items_view items.now)) }
    ensures kept { Extends names.old names.new }
    ensures count { IfOk result (λ xs. length xs ≡ length items.now) }
{
    let mut read = Vec::new(alloc);
    for item in items {
        read.push(T::read(alloc, names, item)?)?;
    }
    Ok(Seq::new(read))
}

/// The items of the array that a value is, one after another.
pub(crate) fn array_of<T: Item>(
    alloc: Global,
    names: &mut Names,
    value: &Json,
) -> Result<Seq<T>, OrMemory<ScriptFault>>
    ensures gives { Gives (λ xs. (xs, names.new)) result
        (spec.array_of T.form names.old (view value.now)) }
    ensures kept { Extends names.old names.new }
{
    match value {
        Json::Array(items) => each::<T>(alloc, names, items.as_slice()),
        _ => bad(),
    }
}
