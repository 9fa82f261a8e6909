//! What stands at a key of an object. The object was found to be of the right form before; a value of another form would be
//! read as if it were missing.
ghost use Rattle.std.specs.Prelude.{◌≡◌, IfOk, Some};
ghost use Rattle.serde_json.specs.Find.{get};
ghost use Rattle.serde_json.specs.View.{view, items_view};
ghost use Rattle.cdi_deploy.specs.Parts as spec;

use cdi_base::{Scope, Value};
use cdi_deployment::Steps;
use cdi_form::Form;
use cdi_form::shape::MAX_ARGUMENTS;
use cdi_form::words::scope_named;
use serde_json::Value as Json;
use std::alloc::{AllocError, Global};

/// The text that a value is, empty where it is none.
pub(crate) fn text_in(value: &Json) -> &str
    ensures { result.now ≡ spec.text_of (Some (view value.now)) }
{
    match value {
        Json::String(text) => text.as_str(),
        _ => "",
    }
}

/// The items of an array, none where a value is no array.
pub(crate) fn list_in(value: &Json) -> &[Json]
    ensures { items_view result.now ≡ spec.list_of (Some (view value.now)) }
{
    match value {
        Json::Array(items) => items.as_slice(),
        _ => &[],
    }
}

/// The text at a key, empty where it is missing.
pub(crate) fn text_at<'v>(value: &'v Json, key: &str) -> &'v str
    ensures { result.now ≡ spec.text_of (get key.now (view value.now)) }
{
    match value.get(key) {
        Some(found) => text_in(found),
        None => "",
    }
}

/// The items of the array at a key, none where it is missing.
pub(crate) fn list_at<'v>(value: &'v Json, key: &str) -> &'v [Json]
    ensures { items_view result.now ≡ spec.list_of (get key.now (view value.now)) }
{
    match value.get(key) {
        Some(found) => list_in(found),
        None => &[],
    }
}

/// The number of arguments at a key, 0 where it is missing.
pub(crate) fn count_at(value: &Json, key: &str) -> u32
    ensures { result ≡ spec.count_of (get key.now (view value.now)) }
{
    match value.get(key).and_then(Json::as_u64) {
        Some(count) => if count <= MAX_ARGUMENTS {
            count as u32
        } else {
            0
        },
        None => 0,
    }
}

/// The mark at a key, false where it is missing.
pub(crate) fn mark_at(value: &Json, key: &str) -> bool
    ensures { result ≡ spec.mark_of (get key.now (view value.now)) }
{
    match value.get(key) {
        Some(Json::Bool(mark)) => *mark,
        _ => false,
    }
}

/// The whole number at a key, if there is one.
pub(crate) fn whole_number_at(value: &Json, key: &str) -> Option<i64>
    ensures { result ≡ spec.whole_number_of (get key.now (view value.now)) }
{
    match value.get(key) {
        Some(Json::Number(number)) => number.as_i64(),
        _ => None,
    }
}

/// The value at a key, null where it is missing.
pub(crate) fn value_at(alloc: Global, value: &Json, key: &str) -> Result<Value, AllocError>
    ensures { IfOk result (λ v. v ≡ spec.value_of (get key.now (view value.now))) }
{
    match value.get(key) {
        Some(found) => Ok(Value::read(alloc, found)?.unwrap_or(Value::Null)),
        None => Ok(Value::Null),
    }
}

/// The scope at a key, the dependent pseudo-scope where it is missing (Jakarta CDI 4.0, *Default scope*).
pub(crate) fn scope_at(value: &Json, key: &str) -> Scope
    ensures { result ≡ spec.scope_of (get key.now (view value.now)) }
{
    scope_named(text_at(value, key)).unwrap_or(Scope::Dependent)
}

/// A copy of the steps at a key.
pub(crate) fn steps_at(value: &Json, key: &str) -> Result<Steps, AllocError>
    ensures { IfOk result (λ steps. steps ≡ spec.data_of (get key.now (view value.now))) }
{
    match value.get(key) {
        Some(steps) => Ok(Steps::new(steps.clone()?)),
        None => Ok(Steps::new(Json::Null)),
    }
}
