//! The first text in the place of a name that is none.
ghost use Rattle.std.specs.Prelude.{◌≡◌, option_map};
ghost use Rattle.serde_json.specs.View.{view, items_view, members_view};
ghost use Rattle.cdi_form.specs.Names as spec;

use crate::form::{Kind, Part, named_part, part_at};
use crate::keys::kind_of;
use cdi_base::is_name;
use serde_json::{Map, Value};

/// A text, if it is no name.
pub fn no_name(text: &str) -> Option<&str>
    ensures { option_map (λ s. s.now) result ≡ spec.no_name text.now }
{
    if is_name(text) { None } else { Some(text) }
}

/// A text at a part, if it stands in the place of a name and is none.
pub fn bad_text(part: Part, text: &str) -> Option<&str>
    ensures { option_map (λ s. s.now) result ≡ spec.bad_text part text.now }
{
    match part {
        Part::Name | Part::Use => no_name(text),
        _ => None,
    }
}

/// The first text in the place of a name that is none, in a value at a part, if there is one: items go by
/// their index, members by their keys in the order of bytes, and in a use its name comes before the keys of its members.
#[cycle(names)]
pub fn first_bad_name(value: &Value, part: Part) -> Option<&str>
    ensures { option_map (λ s. s.now) result ≡ spec.first_bad_name (view value.now) part }
{
    match value {
        Value::String(text) => bad_text(part, text.as_str()),
        Value::Array(items) => match named_part(part) {
            Some(inner) => bad_name_in_items(items, inner),
            None => None,
        },
        Value::Object(members) => match part {
            Part::Use => first_bad_key(members),
            _ => match kind_of(part, members) {
                Some(kind) => bad_name_in_members(members, kind),
                None => None,
            },
        },
        _ => None,
    }
}

#[cycle(names)]
fn bad_name_in_items(items: &Vec<Value>, part: Part) -> Option<&str>
    ensures { option_map (λ s. s.now) result
        ≡ spec.bad_name_in_items (items_view items.now.items) part }
{
    for item in items {
        if let Some(text) = first_bad_name(item, part) {
            return Some(text);
        }
    }
    None
}

#[cycle(names)]
fn bad_name_in_members(members: &Map<String, Value>, kind: Kind) -> Option<&str>
    ensures { option_map (λ s. s.now) result
        ≡ spec.bad_name_in_members (members_view members.now.entries) kind }
{
    for (key, member) in members.iter() {
        let Some(part) = part_at(kind, key.as_str()) else {
            continue;
        };
        if let Some(text) = first_bad_name(member, part) {
            return Some(text);
        }
    }
    None
}

/// The first key of the members in a use that is no name.
fn first_bad_key(members: &Map<String, Value>) -> Option<&str>
    ensures { option_map (λ s. s.now) result
        ≡ spec.first_bad_key (members_view members.now.entries) }
{
    for (key, _) in members.iter() {
        if !is_name(key.as_str()) {
            return Some(key.as_str());
        }
    }
    None
}
