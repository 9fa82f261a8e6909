//! Names, values and uses of qualifiers and bindings, read from JSON.
ghost use Rattle.std.specs.Prelude.{◌≡◌, Option, IfOk};
ghost use Rattle.std.specs.Option.{is_some};
ghost use Rattle.serde_json.specs.Data.{Data};
ghost use Rattle.serde_json.specs.View.{view, items_view, members_view};
ghost use Rattle.cdi_form.specs.ValueForms as spec;

use cdi_base::{Seq, Text, Value, WrittenMember, WrittenUse};
use serde_json::{Map, Value as Json};
use std::alloc::{AllocError, Global};

/// What a JSON value may be: a text, a value of an instance, or a use of a qualifier or binding. Its names are texts, of
/// which nothing is asked yet.
pub trait Form: Sized + Drop {
    ghost form: { Data → Option Self };

    /// What a value is, or `None` where it is of another form. An error where a growth was refused.
    fn read(alloc: Global, value: &Json) -> Result<Option<Self>, AllocError>
        ensures { IfOk result (λ x. x ≡ form (view value.now)) };
}

impl Form for Text {
    ghost form = { spec.text_in };

    fn read(alloc: Global, value: &Json) -> Result<Option<Text>, AllocError> {
        match value {
            Json::String(text) => Ok(Some(Text::from_str(alloc, text.as_str())?)),
            _ => Ok(None),
        }
    }
}

impl Form for Value {
    ghost form = { spec.value_in };

    fn read(alloc: Global, value: &Json) -> Result<Option<Value>, AllocError> {
        match value {
            Json::Null => Ok(Some(Value::Null)),
            Json::Number(number) => Ok(number.as_i64().map(Value::Int)),
            Json::String(text) => Ok(Some(Value::Text(Text::from_str(alloc, text.as_str())?))),
            _ => Ok(None),
        }
    }
}

/// The members that the keys of an object name, in the order of the keys.
fn members_of(
    alloc: Global,
    members: &Map<String, Json>,
) -> Result<Option<Seq<WrittenMember>>, AllocError>
    ensures { IfOk result (λ ms. ms ≡ spec.members_in (members_view members.now.entries)) }
{
    let mut read = Vec::new(alloc);
    for (key, value) in members.iter() {
        let Some(value) = Value::read(alloc, value)? else {
            return Ok(None);
        };
        let name = Text::from_str(alloc, key.as_str())?;
        read.push(WrittenMember { name, value })?;
    }
    Ok(Some(Seq::new(read)))
}

fn use_with(alloc: Global, name: &Json, members: &Json) -> Result<Option<WrittenUse>, AllocError>
    ensures { IfOk result (λ u. u ≡ spec.use_with (view name.now) (view members.now)) }
{
    let Json::String(name) = name else {
        return Ok(None);
    };
    let Json::Object(members) = members else {
        return Ok(None);
    };
    let Some(members) = members_of(alloc, members)? else {
        return Ok(None);
    };
    let name = Text::from_str(alloc, name.as_str())?;
    Ok(Some(WrittenUse { name, members }))
}

fn use_of_items(alloc: Global, items: &[Json]) -> Result<Option<WrittenUse>, AllocError>
    ensures { IfOk result (λ u. u ≡ spec.use_of_items (items_view items.now)) }
{
    let [name, members] = items else {
        return Ok(None);
    };
    use_with(alloc, name, members)
}

impl Form for WrittenUse {
    ghost form = { spec.use_in };

    fn read(alloc: Global, value: &Json) -> Result<Option<WrittenUse>, AllocError> {
        match value {
            Json::String(name) => Ok(Some(WrittenUse {
                name: Text::from_str(alloc, name.as_str())?,
                members: Seq::empty(alloc),
            })),
            Json::Array(items) => use_of_items(alloc, items.as_slice()),
            _ => Ok(None),
        }
    }
}

/// What each of these values is, in their order, or `None` where one is of another form.
pub fn each<T: Form>(alloc: Global, values: &[Json]) -> Result<Option<Seq<T>>, AllocError>
    ensures { IfOk result (λ xs. xs ≡ spec.each_in T.form (items_view values.now)) }
{
    let mut read = Vec::new(alloc);
    for value in values {
        let Some(item) = T::read(alloc, value)? else {
            return Ok(None);
        };
        read.push(item)?;
    }
    Ok(Some(Seq::new(read)))
}

/// What the items of an array are, in their order, or `None` where one is of another form, and where the value is no
/// array.
pub fn list_of<T: Form>(alloc: Global, value: &Json) -> Result<Option<Seq<T>>, AllocError>
    ensures { IfOk result (λ xs. xs ≡ spec.list_in T.form (view value.now)) }
{
    match value {
        Json::Array(items) => each::<T>(alloc, items.as_slice()),
        _ => Ok(None),
    }
}

/// Whether a value is null, a whole number of 64 bits or a text.
pub fn is_value(value: &Json) -> bool
    ensures { result ≡ is_some (spec.value_in (view value.now)) }
{
    match value {
        Json::Null => true,
        Json::Number(number) => number.is_i64(),
        Json::String(_) => true,
        _ => false,
    }
}

fn are_values(members: &Map<String, Json>) -> bool
    ensures { result ≡ is_some (spec.members_in (members_view members.now.entries)) }
{
    for (_, value) in members.iter() {
        if !is_value(value) {
            return false;
        }
    }
    true
}

fn is_use_with(name: &Json, members: &Json) -> bool
    ensures { result ≡ is_some (spec.use_with (view name.now) (view members.now)) }
{
    match name {
        Json::String(_) => match members {
            Json::Object(members) => are_values(members),
            _ => false,
        },
        _ => false,
    }
}

fn are_use_items(items: &[Json]) -> bool
    ensures { result ≡ is_some (spec.use_of_items (items_view items.now)) }
{
    let [name, members] = items else {
        return false;
    };
    is_use_with(name, members)
}

/// Whether a value is a use of a qualifier or binding.
pub fn is_use(value: &Json) -> bool
    ensures { result ≡ is_some (spec.use_in (view value.now)) }
{
    match value {
        Json::String(_) => true,
        Json::Array(items) => are_use_items(items.as_slice()),
        _ => false,
    }
}
