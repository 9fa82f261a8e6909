//! What is wrong with the value in the place of a step.
ghost use Rattle.std.specs.Prelude.{◌≡◌, ◌+◌, ◌<◌, ◌^◌, IfOk, find, length, map};
ghost use Rattle.serde_json.specs.View.{view, items_view};
ghost use Rattle.cdi_script.specs.Step.{all_kinds, row_of};
ghost use Rattle.cdi_form_mistakes.specs.Steps as spec;

use crate::words::{listed, unknown_word};
use crate::written_of;
use crate::wrong_step::{StepMistake, WrongPart};
use cdi_script::{PartKind, StepKind, caught};
use serde_json::Value as Json;
use std::alloc::{AllocError, Global};

/// The words of steps.
const WORDS: &[&str] = &[
    "set", "call", "own", "read", "write", "fire", "proceed", "find", "destroy", "keep", "peek",
    "give", "throw", "catch",
];

fn words() -> &'static [&'static str]
    ensures { map (λ word. word.now) result.now ≡ spec.words }
{
    WORDS
}

fn has_word(kind: StepKind, word: &str) -> bool
    ensures { result ≡ spec.has_word word.now kind }
{
    kind.row().word == word
}

fn has_count(kind: StepKind, word: &str, count: usize) -> bool
    ensures { result ≡ spec.has_count word.now count kind }
{
    has_word(kind, word) && kind.row().parts.len() == count
}

/// The kind of steps with this word and so many parts.
fn kind_with(word: &str, count: usize) -> Option<StepKind>
    ensures { result ≡ find (spec.has_count word.now count) all_kinds }
{
    StepKind::ALL
        .iter()
        .copied()
        .find(|kind| has_count(*kind, word, count))
}

/// The first kind of steps with this word.
fn kind_named(word: &str) -> Option<StepKind>
    ensures { result ≡ find (spec.has_word word.now) all_kinds }
{
    StepKind::ALL
        .iter()
        .copied()
        .find(|kind| has_word(*kind, word))
}

/// The first of these values that is no part of its kind, if there is one.
fn part_mistake(
    alloc: Global,
    index: usize,
    kinds: &[PartKind],
    values: &[Json],
) -> Result<Option<StepMistake>, AllocError>
    requires { index + length kinds.now < 2 ^ 64 }
    ensures { IfOk result
        (λ m. m ≡ spec.part_mistake index kinds.now (items_view values.now)) }
{
    let Some((kind, kinds)) = kinds.split_first() else {
        return Ok(None);
    };
    let Some((value, values)) = values.split_first() else {
        return Ok(None);
    };
    if kind.is_in(value) {
        return part_mistake(alloc, index + 1, kinds, values);
    }
    let part = WrongPart {
        kind: *kind,
        written: written_of(alloc, value)?,
    };
    Ok(Some(StepMistake::WrongPart { index, part }))
}

/// The first wrong part of a step of a kind that goes with the number of values.
fn wrong_part(
    alloc: Global,
    kind: Option<StepKind>,
    values: &[Json],
) -> Result<Option<StepMistake>, AllocError>
    ensures { IfOk result (λ m. m ≡ spec.wrong_part kind (items_view values.now)) }
{
    match kind {
        Some(kind) => part_mistake(alloc, 1, kind.row().parts, values),
        None => Ok(None),
    }
}

/// What is wrong where no kind of steps goes with the number of values.
fn wrong_count(
    alloc: Global,
    kind: Option<StepKind>,
    word: &str,
    count: usize,
) -> Result<StepMistake, AllocError>
    ensures { IfOk result (λ m. m ≡ spec.wrong_count kind word.now count) }
{
    match kind {
        Some(kind) => Ok(StepMistake::WrongCount { kind, count }),
        None => Ok(StepMistake::UnknownStep(unknown_word(alloc, word, words())?)),
    }
}

/// What is wrong with so many values behind a word.
fn parts_mistake(
    alloc: Global,
    word: &str,
    count: usize,
    values: &[Json],
) -> Result<StepMistake, AllocError>
    ensures { IfOk result (λ m. m ≡ spec.parts_mistake word.now count (items_view values.now)) }
{
    match wrong_part(alloc, kind_with(word, count), values)? {
        Some(mistake) => Ok(mistake),
        None => wrong_count(alloc, kind_named(word), word, count),
    }
}

/// What is wrong with a value in the place of a word, and so many behind it.
fn word_mistake(
    alloc: Global,
    word: &Json,
    count: usize,
    values: &[Json],
) -> Result<StepMistake, AllocError>
    ensures { IfOk result
        (λ m. m ≡ spec.word_mistake (view word.now) count (items_view values.now)) }
{
    match word {
        Json::String(word) => parts_mistake(alloc, word.as_str(), count, values),
        _ => Ok(StepMistake::NoWord(listed(alloc, words())?)),
    }
}

#[tactic(auto, using(crate::proofs::Counts::counted))]
fn items_mistake(alloc: Global, items: &[Json]) -> Result<StepMistake, AllocError>
    ensures { IfOk result (λ m. m ≡ spec.items_mistake (items_view items.now)) }
{
    let Some((word, values)) = items.split_first() else {
        return Ok(StepMistake::NoWord(listed(alloc, words())?));
    };
    word_mistake(alloc, word, values.len(), values)
}

/// What is wrong with a value in the place of a step that is none. An error where a growth was refused.
pub fn step_mistake(alloc: Global, value: &Json) -> Result<StepMistake, AllocError>
    ensures { IfOk result (λ m. m ≡ spec.step_mistake (view value.now)) }
{
    match value {
        Json::Array(items) => {
            let items = items.as_slice();
            items_mistake(alloc, caught(items).unwrap_or(items))
        }
        _ => Ok(StepMistake::NoList(written_of(alloc, value)?)),
    }
}
