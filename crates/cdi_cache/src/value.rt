//! Values of members that are asked for.
ghost use Rattle.std.specs.Prelude.{◌≡◌, true};

use cdi_base::Value;
use cdi_quals::order::compare_values;
use std::hash::{Hash, Hasher};

pub(crate) fn is_same_value(a: &Value, b: &Value) -> bool
    ensures { result ≡ true → a.now ≡ b.now }
{
    compare_values(a, b).is_eq()
}

pub(crate) fn hash_value<H: Hasher>(value: &Value, state: &mut H) {
    match value {
        Value::Null => {}
        Value::Int(number) => number.hash(state),
        Value::Text(text) => text.as_str().hash(state),
    }
}
