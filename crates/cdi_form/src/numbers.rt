//! Whether each number of a deployment is a whole number of 64 bits.
ghost use Rattle.std.specs.Prelude.{◌≡◌};
ghost use Rattle.serde_json.specs.View.{view, items_view, members_view};
ghost use Rattle.cdi_form.specs.Numbers as spec;

use serde_json::{Map, Value};

/// Whether each number, wherever it stands in a value, is a whole number of 64 bits with its sign.
#[cycle(numbers)]
pub fn numbers_fit(value: &Value) -> bool
    ensures { result ≡ spec.numbers_fit (view value.now) }
{
    match value {
        Value::Null => true,
        Value::Bool(_) => true,
        Value::Number(number) => number.is_i64(),
        Value::String(_) => true,
        Value::Array(items) => items_fit(items),
        Value::Object(members) => members_fit(members),
    }
}

#[cycle(numbers)]
fn items_fit(items: &Vec<Value>) -> bool
    ensures { result ≡ spec.items_fit (items_view items.now.items) }
{
    for item in items {
        if !numbers_fit(item) {
            return false;
        }
    }
    true
}

#[cycle(numbers)]
fn members_fit(members: &Map<String, Value>) -> bool
    ensures { result ≡ spec.members_fit (members_view members.now.entries) }
{
    for (_, member) in members.iter() {
        if !numbers_fit(member) {
            return false;
        }
    }
    true
}
