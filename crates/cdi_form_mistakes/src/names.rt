//! The first text in the place of a name that is none.
ghost use Rattle.std.specs.Prelude.{◌≡◌, IfOk, option_map};
ghost use Rattle.serde_json.specs.View.{view, items_view, members_view};
ghost use Rattle.cdi_form.specs.Names.{first_bad_key};
ghost use Rattle.cdi_form_mistakes.specs.NameMistake as spec;

use crate::mistake::{FormMistake, PlacedMistake, here};
use cdi_base::{Text, is_name};
use cdi_form::form::{Kind, Part, named_part, part_at};
use cdi_form::keys::kind_of;
use cdi_form::names::bad_text;
use cdi_form::shape::{under_index, under_key};
use serde_json::{Map, Value as Json};
use std::alloc::{AllocError, Global};

fn no_name(alloc: Global, text: Option<&str>) -> Result<Option<PlacedMistake>, AllocError>
    ensures { IfOk result (λ m. m ≡ spec.no_name (option_map (λ s. s.now) text.entry)) }
{
    match text {
        Some(text) => {
            let text = Text::from_str(alloc, text)?;
            Ok(Some(here(alloc, FormMistake::NoName(text))))
        }
        None => Ok(None),
    }
}

/// The first key of the members in a use that is no name.
fn bad_key(members: &Map<String, Json>) -> Option<&str>
    ensures { option_map (λ s. s.now) result ≡ first_bad_key (members_view members.now.entries) }
{
    for (key, _) in members.iter() {
        if !is_name(key.as_str()) {
            return Some(key.as_str());
        }
    }
    None
}

/// The first text in the place of a name that is none, in a value at a part, if there is one: items go by their index,
/// members by their keys in the order of bytes, and in a use its name comes before the keys of its members, which stand at
/// the place of their object. An error where a growth was refused.
#[cycle(name_mistake)]
pub fn name_mistake(
    alloc: Global,
    value: &Json,
    part: Part,
) -> Result<Option<PlacedMistake>, AllocError>
    ensures { IfOk result (λ m. m ≡ spec.name_mistake (view value.now) part) }
{
    match value {
        Json::String(text) => no_name(alloc, bad_text(part, text.as_str())),
        Json::Array(items) => match named_part(part) {
            Some(inner) => name_in_items(alloc, items, inner),
            None => Ok(None),
        },
        Json::Object(members) => match part {
            Part::Use => no_name(alloc, bad_key(members)),
            _ => match kind_of(part, members) {
                Some(kind) => name_in_members(alloc, members, kind),
                None => Ok(None),
            },
        },
        _ => Ok(None),
    }
}

#[cycle(name_mistake)]
fn name_in_items(
    alloc: Global,
    items: &Vec<Json>,
    part: Part,
) -> Result<Option<PlacedMistake>, AllocError>
    ensures { IfOk result (λ m. m ≡ spec.name_in_items (items_view items.now.items) part 0) }
{
    let mut index = 0usize;
    for item in items {
        if let Some(PlacedMistake { path, mistake }) = name_mistake(alloc, item, part)? {
            let path = under_index(alloc, index, path)?;
            return Ok(Some(PlacedMistake { path, mistake }));
        }
        index += 1;
    }
    Ok(None)
}

#[cycle(name_mistake)]
fn name_in_members(
    alloc: Global,
    members: &Map<String, Json>,
    kind: Kind,
) -> Result<Option<PlacedMistake>, AllocError>
    ensures { IfOk result
        (λ m. m ≡ spec.name_in_members (members_view members.now.entries) kind) }
{
    for (key, member) in members.iter() {
        let Some(part) = part_at(kind, key.as_str()) else {
            continue;
        };
        if let Some(PlacedMistake { path, mistake }) = name_mistake(alloc, member, part)? {
            let path = under_key(alloc, key.as_str(), path)?;
            return Ok(Some(PlacedMistake { path, mistake }));
        }
    }
    Ok(None)
}
