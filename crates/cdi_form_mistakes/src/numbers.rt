//! The first number that is no whole number of 64 bits.
ghost use Rattle.std.specs.Prelude.{◌≡◌, IfOk};
ghost use Rattle.serde_json.specs.View.{view, items_view, members_view, number_view};
ghost use Rattle.cdi_form_mistakes.specs.NumberMistake as spec;

use crate::mistake::{FormMistake, PlacedMistake, here};
use crate::written::number_of;
use cdi_form::shape::{under_index, under_key};
use serde_json::{Map, Number, Value as Json};
use std::alloc::{AllocError, Global};

fn not_whole(alloc: Global, number: &Number) -> Option<PlacedMistake>
    ensures { result ≡ spec.not_whole (number_view number.now) }
{
    if number.is_i64() {
        None
    } else {
        Some(here(alloc, FormMistake::NotWhole(number_of(number))))
    }
}

/// The first number of a value, wherever it stands, that is no whole number of 64 bits with its sign, if there is one. An error
/// where a growth was refused.
#[cycle(number_mistake)]
pub fn number_mistake(alloc: Global, value: &Json) -> Result<Option<PlacedMistake>, AllocError>
    ensures { IfOk result (λ m. m ≡ spec.number_mistake (view value.now)) }
{
    match value {
        Json::Null => Ok(None),
        Json::Bool(_) => Ok(None),
        Json::Number(number) => Ok(not_whole(alloc, number)),
        Json::String(_) => Ok(None),
        Json::Array(items) => number_in_items(alloc, items),
        Json::Object(members) => number_in_members(alloc, members),
    }
}

#[cycle(number_mistake)]
fn number_in_items(alloc: Global, items: &Vec<Json>) -> Result<Option<PlacedMistake>, AllocError>
    ensures { IfOk result (λ m. m ≡ spec.number_in_items (items_view items.now.items) 0) }
{
    let mut index = 0usize;
    for item in items {
        if let Some(PlacedMistake { path, mistake }) = number_mistake(alloc, item)? {
            let path = under_index(alloc, index, path)?;
            return Ok(Some(PlacedMistake { path, mistake }));
        }
        index += 1;
    }
    Ok(None)
}

#[cycle(number_mistake)]
fn number_in_members(
    alloc: Global,
    members: &Map<String, Json>,
) -> Result<Option<PlacedMistake>, AllocError>
    ensures { IfOk result
        (λ m. m ≡ spec.number_in_members (members_view members.now.entries)) }
{
    for (key, member) in members.iter() {
        if let Some(PlacedMistake { path, mistake }) = number_mistake(alloc, member)? {
            let path = under_key(alloc, key.as_str(), path)?;
            return Ok(Some(PlacedMistake { path, mistake }));
        }
    }
    Ok(None)
}
