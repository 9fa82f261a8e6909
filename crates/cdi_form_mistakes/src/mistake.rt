//! What is wrong at a place of a JSON value.
ghost use Rattle.std.specs.Prelude.{◌≡◌, []};
ghost use Rattle.cdi_form_mistakes.specs.Mistake as spec;
ghost use Rattle.cdi_form_mistakes.specs.Mistake.{mistake_text, placed_text};

use crate::words::UnknownWord;
use crate::written::{Written, WrittenNumber};
use cdi_base::Text;
use cdi_form::Part;
use std::alloc::Global;
use std::fmt;

/// What is wrong with a value, or with a text in it.
#[derive(Drop)]
pub enum FormMistake {
    /// An object has a key that its kind doesn't know.
    UnknownKey(UnknownWord),
    /// An object lacks this key, which its kind requires.
    MissingKey(Text),
    /// The key `kind` of a member is missing, or no text stands there. These are the known kinds.
    NoMemberKind(Text),
    /// The key `kind` of a member has a text that names no kind.
    UnknownMemberKind(UnknownWord),
    /// A text in the place of a scope is none.
    UnknownScope(UnknownWord),
    /// Another value belongs here.
    WrongValue { written: Written, part: Part },
    /// A number is no whole number of 64 bits with its sign.
    NotWhole(WrittenNumber),
    /// A text in the place of a name is none.
    NoName(Text),
}

/// A mistake with its place: a JSON Pointer (RFC 6901) without escapes.
#[derive(Drop)]
pub struct PlacedMistake {
    pub path: Text,
    pub mistake: FormMistake,
}

/// What belongs at a part.
fn wanted(part: Part) -> &'static str
    ensures { result.now ≡ spec.wanted part }
{
    match part {
        Part::FormNumber => "the number 1",
        Part::Name => "a name",
        Part::Names => "a list of names",
        Part::Value => "null, a whole number or a text",
        Part::ArgumentCount => "a whole number from 0 to 8",
        Part::Mark => "true or false",
        Part::WholeNumber => "a whole number",
        Part::Scope => "the name of a scope",
        Part::MemberKind => "a kind of member",
        Part::Use => "a name, or a list of a name and an object of values",
        Part::Uses => "a list of qualifiers or bindings",
        Part::SomeUses => "a list of at least one binding",
        Part::Steps => "a list of steps",
        Part::Object(_) => "an object",
        Part::Objects(_) => "a list of objects",
        Part::Member => "an object",
        Part::Members => "a list of members",
    }
}

impl fmt::Display for FormMistake {
    ghost output = { mistake_text };

    fn fmt<W: fmt::Write>(&self, f: &mut fmt::Formatter<W>) -> fmt::Result {
        match self {
            FormMistake::UnknownKey(word) => write!(f, "the key {word}"),
            FormMistake::MissingKey(key) => {
                let key = key.as_str();
                write!(f, "the key {key} is missing")
            }
            FormMistake::NoMemberKind(known) => {
                let known = known.as_str();
                write!(
                    f,
                    "the key kind is missing, or is no text. Known are {known}"
                )
            }
            FormMistake::UnknownMemberKind(word) => write!(f, "the kind of member {word}"),
            FormMistake::UnknownScope(word) => write!(f, "the scope {word}"),
            FormMistake::WrongValue { written, part } => {
                let wanted = wanted(*part);
                write!(f, "{wanted} belongs here, not {written}")
            }
            FormMistake::NotWhole(number) => write!(f, "{number} is no whole number of 64 bits"),
            FormMistake::NoName(text) => {
                let text = text.as_str();
                write!(
                    f,
                    "{text:?} is no name: 1 to 255 letters, digits, _, . and $"
                )
            }
        }
    }
}

impl fmt::Display for PlacedMistake {
    ghost output = { placed_text };

    fn fmt<W: fmt::Write>(&self, f: &mut fmt::Formatter<W>) -> fmt::Result {
        let mistake = &self.mistake;
        match self.path.as_str() {
            "" => write!(f, "{mistake}"),
            path => write!(f, "{path}: {mistake}"),
        }
    }
}

/// A mistake of the value itself.
pub(crate) fn here(alloc: Global, mistake: FormMistake) -> PlacedMistake
    ensures { result ≡ spec.here mistake }
{
    PlacedMistake {
        path: Text::new(String::new(alloc)),
        mistake,
    }
}
