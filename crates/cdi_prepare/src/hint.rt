//! The hints, and how they are written.
ghost use Rattle.cdi_prepare.specs.HintText.{hint_text, mistake_text};

use cdi_base::Text;
use cdi_form_mistakes::{PlacedMistake, StepMistake};
use cdi_positions::Position;
use std::fmt;

/// What is wrong with a deployment that is refused, beyond the line that tells its fault.
#[derive(Drop)]
pub enum Mistake {
    /// There are no bytes.
    Empty,
    /// The bytes begin with a byte order mark, which is no part of a JSON text (RFC 8259).
    ByteOrderMark,
    /// The bytes are not UTF-8.
    NotUtf8,
    /// The bytes stop being one JSON text.
    NotJson,
    /// A value is not of the form of a deployment, a number is no whole number of 64 bits, or a text in the place of a name is none.
    Form(PlacedMistake),
    /// The list at this JSON Pointer (RFC 6901) has more items than its limit. `/classes` counts with the interfaces and
    /// the interceptors, and the `fields` of a class or an interceptor with its injected fields. It is the first list of a
    /// deployment that is too long, in the order `/classes`, `/scripts`, `/qualifiers`, `/bindings`, `/exceptions`,
    /// `/selected`, `/order`; then class by class its `fields`, `members`, `implements` and `bindings`, the `quals` and
    /// `typed` of its `bean`, the `quals` of each of `inject`, the `params` of its `constructor` with their `quals`, and
    /// member by member its `quals`, `typed`, `params` with their `quals`, and `bindings`; then the `extends` of each
    /// interface, `members` and `nonbinding` of each qualifier and of each binding, and interceptor by interceptor its
    /// `fields`, its `bindings` and the `quals` of each of `inject`.
    List {
        path: Text,
        length: usize,
        limit: usize,
    },
    /// The value at this JSON Pointer is no step. It is the first such of the first script that isn't one, which has this name.
    Step {
        path: Text,
        script: Text,
        mistake: StepMistake,
    },
}

/// What is wrong with a deployment that is refused, and where, if that is known.
#[derive(Drop)]
pub struct Hint {
    /// Where bytes that aren't UTF-8 stop to be so. Of others that are no JSON text it is the place that `serde_json` gives: where
    /// the text ends too early, that of its last byte, with column 0 where the last line is empty. Else it is where the value
    /// begins that is wrong.
    pub position: Option<Position>,
    pub mistake: Mistake,
}

impl fmt::Display for Mistake {
    ghost output = { mistake_text };

    fn fmt<W: fmt::Write>(&self, f: &mut fmt::Formatter<W>) -> fmt::Result {
        match self {
            Mistake::Empty => f.write_str("the file is empty: the least deployment is {}"),
            Mistake::ByteOrderMark => {
                f.write_str("the file begins with a byte order mark, which JSON has not")
            }
            Mistake::NotUtf8 => f.write_str("here the file is no UTF-8, the encoding of JSON"),
            Mistake::NotJson => f.write_str("here the file is no JSON"),
            Mistake::Form(mistake) => write!(f, "{mistake}"),
            Mistake::List {
                path,
                length,
                limit,
            } => {
                let path = path.as_str();
                write!(
                    f,
                    "{path} has {length} items, and at most {limit} are allowed"
                )
            }
            Mistake::Step {
                path,
                script,
                mistake,
            } => {
                let path = path.as_str();
                let script = script.as_str();
                write!(f, "{path} of script {script}: {mistake}")
            }
        }
    }
}

impl fmt::Display for Hint {
    ghost output = { hint_text };

    fn fmt<W: fmt::Write>(&self, f: &mut fmt::Formatter<W>) -> fmt::Result {
        let mistake = &self.mistake;
        match &self.position {
            Some(position) => write!(f, "{position}: {mistake}"),
            None => write!(f, "{mistake}"),
        }
    }
}
