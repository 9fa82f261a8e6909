//! The values of fields, arguments, results and events.
use crate::text::Text;
use std::alloc::{AllocError, Global};

/// Null, a whole number of 64 bits, or a text: what a field holds, a method takes and gives, and an event carries.
#[derive(Debug, PartialEq, Eq, Drop)]
pub enum Value {
    Null,
    Int(i64),
    Text(Text),
}

impl Clone for Value {
    ghost use Rattle.std.specs.Prelude.{◌≡◌, IsTrue};
    ghost use Rattle.cdi_base.specs.Plain.{is_plain_value};

    ghost is_clone = { λ v copy. copy ≡ v };

    ghost is_infallible = { λ v. IsTrue (is_plain_value v) };

    fn clone(&self) -> Result<Value, AllocError> {
        match self {
            Value::Null => Ok(Value::Null),
            Value::Int(n) => Ok(Value::Int(*n)),
            Value::Text(text) => Ok(Value::Text(text.clone()?)),
        }
    }
}
