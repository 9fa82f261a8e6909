//! What is answered to a word that is to be explained.
ghost use Rattle.std.specs.Prelude.{◌≡◌, string_bytes, IfOk};
ghost use Rattle.cdi_findings.specs.Explanation.{unknown_text};
ghost use Rattle.cdi_program.specs.Lines.{file_line};
ghost use Rattle.cdi_program.specs.WordAnswers as spec;

use crate::lines::file_line;
use cdi_findings::{Explanation, explain, explanations, unknown_text};
use std::alloc::{AllocError, Global};

/// What is answered to a word that is to be explained.
#[derive(Drop)]
pub(crate) enum WordAnswer {
    /// What it means.
    Known(String),
    /// It is no word of the output, as this line tells.
    Unknown(String),
}

/// The line that tells that a word is none of the output.
fn unknown_line(
    alloc: Global,
    explanations: &[Explanation],
    word: &str,
) -> Result<String, AllocError>
    ensures { IfOk result (λ line. string_bytes line
        ≡ file_line word.now (unknown_text word.now explanations.now)) }
{
    let cause = unknown_text(alloc, explanations, word)?;
    file_line(alloc, word, &cause)
}

/// The answer to a word.
pub(crate) fn answer_on(alloc: Global, word: &str) -> Result<WordAnswer, AllocError>
    ensures { IfOk result (spec.IsAnswerOn word.now) }
{
    let explanations = explanations(alloc)?;
    match explain(alloc, &explanations, word)? {
        Some(text) => Ok(WordAnswer::Known(text)),
        None => Ok(WordAnswer::Unknown(unknown_line(alloc, &explanations, word)?)),
    }
}
