//! Calls of the contexts at the boot, behind the word `contexts`. The lines are those of the module `lines`, and their calls those of the
//! module `context_changes`.
use crate::context_changes::answer_contexts;
use crate::environments::Environments;
use crate::lines::{Answering, answers_to_lines};
use cdi_contexts::Contexts;
use std::alloc::{AllocError, Global};

/// Contexts, and the environments that lines name.
#[derive(Drop)]
struct NamedContexts {
    contexts: Contexts,
    known: Environments,
}

impl Answering for NamedContexts {
    fn answer(
        &mut self,
        alloc: Global,
        words: &[&str],
        text: &mut String,
    ) -> Result<(), AllocError> {
        answer_contexts(alloc, &mut self.contexts, &mut self.known, words, text)
    }
}

/// What the contexts at the boot answer to each line.
pub(crate) fn contexts_answers(alloc: Global, input: &str) -> Result<String, AllocError> {
    let mut contexts = NamedContexts {
        contexts: Contexts::new(alloc),
        known: Environments::new(alloc),
    };
    answers_to_lines(alloc, &mut contexts, input)
}
