//! What the last commands asked of a deployment.
ghost use Rattle.std.specs.Prelude.{◌≡◌, true, [], IfOk, IfSome};
ghost use Rattle.cdi_run_tables.specs.Asked as spec;
ghost use Rattle.cdi_run_tables.specs.Machine.{resolution_of};
ghost use Rattle.cdi_run_tables.specs.Parts.{RunParts as Parts};

use cdi_base::{Name, Seq, Use};
use cdi_cache::WrittenQuestion;
use cdi_resolve::Resolution;
use lru::LruCache;
use std::alloc::{AllocError, Global};
use std::num::NonZeroUsize;

/// How many answers to commands are remembered: the last ones that were asked for.
const REMEMBERED: usize = 256;

/// What a command asked for, with what it resolves to.
#[derive(Drop)]
pub(crate) struct CommandAnswer {
    bean_type: Name,
    qualifiers: Seq<Use>,
    told: Resolution,
}

/// The last answers to commands. An answer is found by a hash of the question, and stands with the question, since two may have one
/// hash.
#[derive(Drop)]
pub(crate) struct CommandAnswers {
    answers: LruCache<u64, CommandAnswer>,
}

impl CommandAnswer {
    /// What a question resolves to, with a copy of the question.
    fn new(
        alloc: Global,
        question: &WrittenQuestion<'_>,
        told: Resolution,
    ) -> Result<CommandAnswer, AllocError>
        ensures { IfOk result (λ answer. answer ≡ record {
          bean_type = question.now.ty;
          qualifiers = question.now.uses.now;
          told = told;
        }) }
    {
        let mut qualifiers = Seq::empty(alloc);
        for written in question.uses {
            qualifiers.push(written.clone()?)?;
        }
        Ok(CommandAnswer {
            bean_type: question.ty,
            qualifiers,
            told,
        })
    }

    /// Whether it is the answer to a question.
    fn is_of(&self, question: &WrittenQuestion<'_>) -> bool
        ensures ty { result ≡ true → self.now.bean_type ≡ question.now.ty }
        ensures uses { result ≡ true → self.now.qualifiers ≡ question.now.uses.now }
    {
        let own = WrittenQuestion {
            ty: self.bean_type,
            uses: self.qualifiers.as_slice(),
        };
        own.is_same(question)
    }
}

impl CommandAnswers {
    /// Nothing is remembered.
    pub(crate) fn new(alloc: Global) -> Result<CommandAnswers, AllocError>
        ensures { IfOk result (λ asked. (t : Parts) → spec.AreTold t asked) }
    {
        let capacity = NonZeroUsize::new(REMEMBERED).unwrap();
        Ok(CommandAnswers {
            answers: LruCache::new(alloc, capacity)?,
        })
    }

    /// What is remembered of a question with this hash.
    pub(crate) fn known(&self, hash: u64, question: &WrittenQuestion<'_>) -> Option<Resolution>
        ensures { IfSome result (λ told. (t : Parts) → spec.AreTold t self.now
            → told ≡ resolution_of t question.now.ty question.now.uses.now) }
    {
        let answer = self.answers.peek(&hash)?;
        if answer.is_of(question) {
            return Some(answer.told);
        }
        None
    }

    /// The answer to a question with this hash becomes the last that was asked for.
    pub(crate) fn promote(&mut self, hash: u64)
        ensures { (t : Parts) → spec.AreTold t self.old → spec.AreTold t self.new }
    {
        self.answers.promote(&hash);
    }

    /// Remembers an answer to a question with this hash, if there is memory, as the last that was asked for.
    pub(crate) fn remember(
        &mut self,
        alloc: Global,
        hash: u64,
        question: &WrittenQuestion<'_>,
        told: Resolution,
    )
        ensures { (t : Parts) → spec.AreTold t self.old
            → told ≡ resolution_of t question.now.ty question.now.uses.now
            → spec.AreTold t self.new }
    {
        if let Ok(answer) = CommandAnswer::new(alloc, question, told) {
            let _ = self.answers.put(hash, answer);
        }
    }
}
