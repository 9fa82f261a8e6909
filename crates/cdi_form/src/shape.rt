//! The first place where a value is not of the form that is wanted.
ghost use Rattle.std.specs.Prelude.{◌≡◌, [], ◌∷◌, ◌++◌, Some, IfOk, decimal};
ghost use Rattle.serde_json.specs.View.{view, items_view, members_view, number_view};
ghost use Rattle.cdi_form.specs.Shape as spec;

use crate::form::{Kind, Part, item_part, part_at};
use crate::keys::{has_right_keys, kind_of};
use crate::value_forms::is_use;
use crate::words::scope_named;
use cdi_base::Text;
use serde_json::{Map, Number, Value};
use std::alloc::{AllocError, Global};

/// The most arguments of a method.
pub const MAX_ARGUMENTS: u64 = 8;

fn here(alloc: Global) -> Result<Option<Text>, AllocError>
    ensures { IfOk result (λ place. place ≡ Some []) }
{
    Ok(Some(Text::new(String::new(alloc))))
}

fn here_unless(alloc: Global, fits: bool) -> Result<Option<Text>, AllocError>
    ensures { IfOk result (λ place. place ≡ spec.here_unless fits) }
{
    if fits { Ok(None) } else { here(alloc) }
}

/// The path to a place that is seen from the value at a key of an object.
pub fn under_key(alloc: Global, key: &str, path: Text) -> Result<Text, AllocError>
    ensures { IfOk result (λ above. above ≡ 47 ∷ key.now ++ path) }
{
    let path = path.as_str();
    Ok(Text::new(format!(in alloc; "/{key}{path}")?))
}

/// The path to a place that is seen from an item of an array.
pub fn under_index(alloc: Global, index: usize, path: Text) -> Result<Text, AllocError>
    ensures { IfOk result (λ above. above ≡ 47 ∷ decimal index ++ path) }
{
    let path = path.as_str();
    Ok(Text::new(format!(in alloc; "/{index}{path}")?))
}

/// Whether null may stand at a part.
pub fn may_be_null(part: Part) -> bool
    ensures { result ≡ spec.may_be_null part }
{
    matches!(part, Part::Value)
}

/// Whether true or false may stand at a part.
pub fn may_be_mark(part: Part) -> bool
    ensures { result ≡ spec.may_be_mark part }
{
    matches!(part, Part::Mark)
}

/// Whether a number may stand at a part.
pub fn may_be_number(part: Part, number: &Number) -> bool
    ensures { result ≡ spec.may_be_number part (number_view number.now) }
{
    match part {
        Part::FormNumber => number.as_u64() == Some(1),
        Part::Value | Part::WholeNumber => true,
        Part::ArgumentCount => match number.as_u64() {
            Some(count) => count <= MAX_ARGUMENTS,
            None => false,
        },
        _ => false,
    }
}

/// Whether a text may stand at a part.
pub fn may_be_text(part: Part, text: &str) -> bool
    ensures { result ≡ spec.may_be_text part text.now }
{
    match part {
        Part::Name | Part::Value | Part::MemberKind | Part::Use => true,
        Part::Scope => scope_named(text).is_some(),
        _ => false,
    }
}

/// Whether an array may stand at a part, as far as that is seen without looking at each item.
pub fn may_be_array(part: Part, value: &Value) -> bool
    ensures { result ≡ spec.may_be_array part (view value.now) }
{
    match part {
        Part::Names | Part::Uses | Part::Objects(_) | Part::Members | Part::Steps => true,
        Part::SomeUses => has_item(value),
        Part::Use => is_use(value),
        _ => false,
    }
}

fn has_item(value: &Value) -> bool
    ensures { result ≡ spec.has_item (view value.now) }
{
    match value {
        Value::Array(items) => match items.as_slice() {
            [] => false,
            [_, ..] => true,
        },
        _ => false,
    }
}

/// The first wrong place in a value that is to be of the form of a part, if there is one: a JSON Pointer (RFC
/// 6901), of which the empty text is the root.
#[cycle(shape)]
pub fn wrong(alloc: Global, value: &Value, part: Part) -> Result<Option<Text>, AllocError>
    ensures { IfOk result (λ place. place ≡ spec.wrong (view value.now) part) }
{
    match value {
        Value::Null => here_unless(alloc, may_be_null(part)),
        Value::Bool(_) => here_unless(alloc, may_be_mark(part)),
        Value::Number(number) => here_unless(alloc, may_be_number(part, number)),
        Value::String(text) => here_unless(alloc, may_be_text(part, text.as_str())),
        Value::Array(items) => if may_be_array(part, value) {
            match item_part(part) {
                Some(inner) => wrong_items(alloc, items, inner),
                None => Ok(None),
            }
        } else {
            here(alloc)
        },
        Value::Object(members) => match kind_of(part, members) {
            Some(kind) => if has_right_keys(kind, members) {
                wrong_members(alloc, members, kind)
            } else {
                here(alloc)
            },
            None => here(alloc),
        },
    }
}

#[cycle(shape)]
fn wrong_items(alloc: Global, items: &Vec<Value>, part: Part) -> Result<Option<Text>, AllocError>
    ensures { IfOk result
        (λ place. place ≡ spec.wrong_items (items_view items.now.items) part 0) }
{
    let mut index = 0usize;
    for item in items {
        if let Some(path) = wrong(alloc, item, part)? {
            return Ok(Some(under_index(alloc, index, path)?));
        }
        index += 1;
    }
    Ok(None)
}

#[cycle(shape)]
fn wrong_members(
    alloc: Global,
    members: &Map<String, Value>,
    kind: Kind,
) -> Result<Option<Text>, AllocError>
    ensures { IfOk result
        (λ place. place ≡ spec.wrong_members (members_view members.now.entries) kind) }
{
    for (key, member) in members.iter() {
        let Some(part) = part_at(kind, key.as_str()) else {
            continue;
        };
        if let Some(path) = wrong(alloc, member, part)? {
            return Ok(Some(under_key(alloc, key.as_str(), path)?));
        }
    }
    Ok(None)
}
