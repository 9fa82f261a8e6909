//! What is wrong with a step.
ghost use Rattle.std.specs.Prelude.{◌≡◌};
ghost use Rattle.cdi_form_mistakes.specs.StepMistake as spec;
ghost use Rattle.cdi_form_mistakes.specs.StepMistake.{mistake_text, part_text};

use crate::{UnknownWord, Written};
use cdi_base::Text;
use cdi_script::{PartKind, StepKind};
use std::fmt;

/// What is wrong with a value in the place of a step. In a catch it is said of the step inside.
#[derive(Drop)]
pub enum StepMistake {
    /// The value is no list.
    NoList(Written),
    /// No text stands first. These are the known words.
    NoWord(Text),
    /// The text that stands first is the word of no step.
    UnknownStep(UnknownWord),
    /// So many parts stand behind the word of a step of this kind, and no step has as many behind this word.
    WrongCount { kind: StepKind, count: usize },
    /// Another part than one of this kind stands at this index, at which the word has 0.
    WrongPart { index: usize, part: WrongPart },
}

/// Another value stands in the place of a part of a kind.
#[derive(Drop)]
pub struct WrongPart {
    pub kind: PartKind,
    pub written: Written,
}

/// How a step of a kind is written.
fn form(kind: StepKind) -> &'static str
    ensures { result.now ≡ spec.form kind }
{
    match kind {
        StepKind::Set => "[\"set\",FIELD,VALUE]",
        StepKind::Call => "[\"call\",REFERENCE,METHOD,[VALUE,..]]",
        StepKind::Own => "[\"own\",METHOD,[VALUE,..]]",
        StepKind::Read => "[\"read\",REFERENCE]",
        StepKind::Write => "[\"write\",REFERENCE,VALUE]",
        StepKind::Fire => "[\"fire\",CLASS,[QUALIFIER,..],VALUE]",
        StepKind::Proceed => "[\"proceed\"] or [\"proceed\",[VALUE,..]]",
        StepKind::ProceedWith => "[\"proceed\"] or [\"proceed\",[VALUE,..]]",
        StepKind::Find => "[\"find\",TYPE,[QUALIFIER,..]]",
        StepKind::Destroy => "[\"destroy\",[\"local\",NUMBER]]",
        StepKind::Keep => "[\"keep\",KEY,VALUE]",
        StepKind::Peek => "[\"peek\",KEY]",
        StepKind::Give => "[\"give\",VALUE]",
        StepKind::Throw => "[\"throw\",EXCEPTION]",
    }
}

/// What a part of a kind is.
fn wanted(kind: PartKind) -> &'static str
    ensures { result.now ≡ spec.wanted kind }
{
    match kind {
        PartKind::Name => "a name",
        PartKind::Via => "a reference, as [\"field\",NAME],",
        PartKind::Local => "a reference [\"local\",NUMBER]",
        PartKind::Qualifiers => "a list of qualifiers",
        PartKind::Value => "null, a whole number, a text or an expression",
        PartKind::Values => "a list of values",
    }
}

impl fmt::Display for StepMistake {
    ghost output = { mistake_text };

    fn fmt<W: fmt::Write>(&self, f: &mut fmt::Formatter<W>) -> fmt::Result {
        match self {
            StepMistake::NoList(written) => write!(f, "a step is a list, not {written}"),
            StepMistake::NoWord(known) => {
                let known = known.as_str();
                write!(f, "a step begins with a word. Known are {known}")
            }
            StepMistake::UnknownStep(word) => write!(f, "the step {word}"),
            StepMistake::WrongCount { kind, count } => {
                let form = form(*kind);
                write!(
                    f,
                    "it is to be {form}, but {count} parts stand behind its word"
                )
            }
            StepMistake::WrongPart { index, part } => write!(f, "at index {index} of it {part}"),
        }
    }
}

impl fmt::Display for WrongPart {
    ghost output = { part_text };

    fn fmt<W: fmt::Write>(&self, f: &mut fmt::Formatter<W>) -> fmt::Result {
        let wanted = wanted(self.kind);
        let written = &self.written;
        write!(f, "{wanted} belongs, not {written}")
    }
}
