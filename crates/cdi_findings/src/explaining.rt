//! Explaining a word.
ghost use Rattle.std.specs.Prelude.{◌≡◌, ◌++◌, map, option_map, string_bytes, IfOk, OnOk};
ghost use Rattle.std.specs.List.{list_any};
ghost use Rattle.cdi_findings.specs.Explanation as spec;

use crate::explanation::Explanation;
use cdi_base::nearest;
use std::alloc::{AllocError, Global};

/// Adds an explanation, if it is of this word.
fn add_if_of(
    alloc: Global,
    explanation: &Explanation,
    word: &str,
    text: &mut String,
) -> Result<(), AllocError>
    ensures { OnOk result (string_bytes text.new
        ≡ string_bytes text.old ++ spec.text_if_of word.now explanation.now) }
{
    if !explanation.is_of(word) {
        return Ok(());
    }
    let added = explanation.to_string(alloc)?;
    text.push_str(&added)
}

/// All explanations of a word among some, one after the other.
fn all_of(alloc: Global, explanations: &[Explanation], word: &str) -> Result<String, AllocError>
    ensures { IfOk result (λ text.
        string_bytes text ≡ spec.texts_of word.now explanations.now) }
{
    let mut text = String::new(alloc);
    for explanation in explanations {
        add_if_of(alloc, explanation, word, &mut text)?;
    }
    Ok(text)
}

/// Whether one of some explanations is of a word.
fn is_known(explanations: &[Explanation], word: &str) -> bool
    ensures { result ≡ list_any (spec.is_of word.now) explanations.now }
{
    explanations
        .iter()
        .any(|explanation| explanation.is_of(word))
}

/// What is told of a word, or of the number of a problem, by some explanations: each of those that are of it, in their order; nothing
/// if none is.
pub fn explain(
    alloc: Global,
    explanations: &[Explanation],
    word: &str,
) -> Result<Option<String>, AllocError>
    ensures { IfOk result (λ text.
        option_map string_bytes text ≡ spec.explained word.now explanations.now) }
{
    if !is_known(explanations, word) {
        return Ok(None);
    }
    Ok(Some(all_of(alloc, explanations, word)?))
}

fn words_of(alloc: Global, explanations: &[Explanation]) -> Result<Vec<&'static str>, AllocError>
    ensures { IfOk result (λ words.
        map (λ word. word.now) words.items ≡ map (λ e. e.word.now) explanations.now) }
{
    let mut words = Vec::new(alloc);
    for explanation in explanations {
        words.push(explanation.word)?;
    }
    Ok(words)
}

/// The word of some explanations that was probably meant.
fn meant(
    alloc: Global,
    explanations: &[Explanation],
    word: &str,
) -> Result<Option<&'static str>, AllocError>
    ensures { IfOk result (λ near.
        option_map (λ text. text.now) near ≡ spec.meant word.now explanations.now) }
{
    let words = words_of(alloc, explanations)?;
    Ok(nearest(word, words.as_slice()))
}

fn suggestion(alloc: Global, near: Option<&str>) -> Result<String, AllocError>
    ensures { IfOk result (λ text.
        string_bytes text ≡ spec.suggestion (option_map (λ text. text.now) near.entry)) }
{
    match near {
        Some(near) => format!(in alloc; " (did you mean {near}?)"),
        None => Ok(String::new(alloc)),
    }
}

/// What is told of a word that no explanation is of, and the word that was probably meant, if one is near.
pub fn unknown_text(
    alloc: Global,
    explanations: &[Explanation],
    word: &str,
) -> Result<String, AllocError>
    ensures { IfOk result (λ text.
        string_bytes text ≡ spec.unknown_text word.now explanations.now) }
{
    let near = meant(alloc, explanations, word)?;
    let suggestion = suggestion(alloc, near)?;
    format!(in alloc;
        "no such fault, warning, problem, refusal, cause, exception, reply or entry{suggestion}"
    )
}
