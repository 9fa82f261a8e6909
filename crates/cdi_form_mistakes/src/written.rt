//! What is written in place of what belongs there.
ghost use Rattle.std.specs.Prelude.{◌≡◌, IfOk};
ghost use Rattle.serde_json.specs.View.{view, number_view};
ghost use Rattle.cdi_form_mistakes.specs.Written as spec;
ghost use Rattle.cdi_form_mistakes.specs.Written.{written_text};

use cdi_base::Text;
use serde_json::{Number, Value as Json};
use std::alloc::{AllocError, Global};
use std::fmt;
use std::marker::Model;

/// A number as it stands in JSON.
#[derive(Drop)]
pub struct WrittenNumber {
    number: Number,
}

impl Model for WrittenNumber {
    ghost use Rattle.serde_json.specs.Data.{Num};
    ghost use Rattle.serde_json.specs.View.{number_view};

    ghost Value = { Num };

    ghost view = { λ n. number_view n.number };
}

impl fmt::Display for WrittenNumber {
    fn fmt<W: fmt::Write>(&self, f: &mut fmt::Formatter<W>) -> fmt::Result {
        let number = &self.number;
        write!(f, "{number}")
    }
}

/// A JSON value, as far as it is told.
#[derive(Drop)]
pub enum Written {
    Null,
    Mark(bool),
    Number(WrittenNumber),
    Text(Text),
    List,
    Object,
}

impl fmt::Display for Written {
    ghost output = { written_text };

    fn fmt<W: fmt::Write>(&self, f: &mut fmt::Formatter<W>) -> fmt::Result {
        match self {
            Written::Null => f.write_str("null"),
            Written::Mark(true) => f.write_str("true"),
            Written::Mark(false) => f.write_str("false"),
            Written::Number(number) => write!(f, "{number}"),
            Written::Text(text) => {
                let text = text.as_str();
                write!(f, "{text:?}")
            }
            Written::List => f.write_str("a list"),
            Written::Object => f.write_str("an object"),
        }
    }
}

/// What a number is, as it is told.
pub(crate) fn number_of(number: &Number) -> WrittenNumber
    ensures { result ≡ number_view number.now }
{
    WrittenNumber { number: *number }
}

/// What a value is, as far as it is told. An error where a growth was refused.
pub fn written_of(alloc: Global, value: &Json) -> Result<Written, AllocError>
    ensures { IfOk result (λ w. w ≡ spec.written_of (view value.now)) }
{
    Ok(match value {
        Json::Null => Written::Null,
        Json::Bool(mark) => Written::Mark(*mark),
        Json::Number(number) => Written::Number(number_of(number)),
        Json::String(text) => Written::Text(Text::from_str(alloc, text.as_str())?),
        Json::Array(_) => Written::List,
        Json::Object(_) => Written::Object,
    })
}
