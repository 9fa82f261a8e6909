//! The answers that a running body has got.
ghost use Rattle.std.specs.Prelude.{◌≡◌, ◌++◌, ◌∷◌, [], length, slice_get, OnOk, OnErr};
ghost use Rattle.std.specs.Option.{option_copied};
ghost use Rattle.cdi_bodies.specs.Answers as spec;

use cdi_base::Answer;
use std::alloc::{AllocError, Global};
use std::marker::Model;

/// What the acts of a running body were answered so far, oldest first, which contracts see as a list. The places of the answers that
/// are exceptions are kept beside them, so that a body can find out where it stands without going through all its answers.
#[derive(Debug, Drop)]
pub struct Answers {
    answers: Vec<Answer>,
    exceptions: Vec<usize>,
}

impl Model for Answers {
    ghost use Rattle.std.specs.Prelude.{◌≡◌, List};
    ghost use Rattle.cdi_base.specs.declared.act.Answer.{Answer as AnyAnswer};
    ghost use Rattle.cdi_bodies.specs.Answers as places;

    ghost Value = { List AnyAnswer };

    ghost view = { λ a. a.answers.items };

    ghost invariant = { λ a. a.exceptions.items ≡ places.exceptions_from 0 a.answers.items };
}

/// Whether an answer is an exception.
fn threw(answer: &Answer) -> bool
    ensures { result ≡ spec.threw answer.now }
{
    match answer {
        Answer::Threw { .. } => true,
        _ => false,
    }
}

impl Answers {
    /// No answers.
    pub fn empty(alloc: Global) -> Answers
        ensures { result ≡ [] }
    {
        Answers {
            answers: Vec::new(alloc),
            exceptions: Vec::new(alloc),
        }
    }

    /// The answers.
    pub fn as_slice(&self) -> &[Answer]
        ensures { result.now ≡ self.now }
    {
        self.answers.as_slice()
    }

    /// How many answers there are.
    pub fn len(&self) -> usize
        ensures { result ≡ length self.now }
    {
        self.answers.len()
    }

    /// The answer to an act, if it has been answered. Acts are counted from 0.
    pub fn get(&self, act: usize) -> Option<&Answer>
        ensures { option_copied result ≡ slice_get self.now act }
    {
        self.answers.get(act)
    }

    /// The places of the answers that are exceptions, ascending.
    pub fn exceptions(&self) -> &[usize]
        ensures { result.now ≡ spec.exceptions_from 0 self.now }
    {
        self.exceptions.as_slice()
    }

    /// Adds an answer at the end. If there is no memory, nothing changes.
    pub fn push(&mut self, answer: Answer) -> Result<(), AllocError>
        ensures ok { OnOk result (self.new ≡ self.old ++ answer ∷ []) }
        ensures err { OnErr result (self.new ≡ self.old) }
    {
        let place = self.answers.as_slice().len();
        if !threw(&answer) {
            self.answers.push(answer)?;
            return Ok(());
        }
        self.exceptions.push(place)?;
        match self.answers.push(answer) {
            Ok(()) => Ok(()),
            Err(_) => {
                let _place = self.exceptions.pop();
                Err(AllocError)
            }
        }
    }
}
