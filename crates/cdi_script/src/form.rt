//! Which arrays are steps, and what is read of them.
ghost use Rattle.std.specs.Prelude.{◌≡◌, option_map};
ghost use Rattle.cdi_base.specs.Name.{Extends};
ghost use Rattle.cdi_base.specs.Reading.{Gives};
ghost use Rattle.serde_json.specs.View.{view, items_view};
ghost use Rattle.cdi_script.specs.Build as build;
ghost use Rattle.cdi_script.specs.Form as spec;
ghost use Rattle.cdi_script.specs.Step.{row_of};

use crate::fault::ScriptFault;
use crate::part::{Parts, are_parts};
use crate::reading::{Item, are_all, bad};
use crate::step::{Action, Step, StepKind};
use cdi_base::{Names, OrMemory};
use cdi_form::is_word;
use serde_json::Value as Json;
use std::alloc::Global;

/// Whether these values are a step of a kind: the word of its row, and then its parts.
fn fits(kind: StepKind, items: &[Json]) -> bool
    ensures { result ≡ spec.fits (row_of kind) (items_view items.now) }
{
    let Some((word, parts)) = items.split_first() else {
        return false;
    };
    let row = kind.row();
    is_word(word, row.word) && are_parts(row.parts, parts)
}

/// The kind of the step that these values are, a catch apart.
fn kind_of(items: &[Json]) -> Option<StepKind>
    ensures { result ≡ spec.kind_of (items_view items.now) }
{
    StepKind::ALL
        .iter()
        .copied()
        .find(|kind| fits(*kind, items))
}

fn caught_in<'v>(word: &Json, step: &'v Json) -> Option<&'v [Json]>
    ensures { option_map (λ inner. items_view inner.now) result
        ≡ spec.caught_in (view word.now) (view step.now) }
{
    match step {
        Json::Array(inner) => {
            if is_word(word, "catch") {
                Some(inner.as_slice())
            } else {
                None
            }
        }
        _ => None,
    }
}

/// The values of the array that stands in a catch, or `None` where these values are no catch of an array.
pub fn caught(items: &[Json]) -> Option<&[Json]>
    ensures { option_map (λ inner. items_view inner.now) result
        ≡ spec.caught (items_view items.now) }
{
    match items {
        [] => None,
        [_] => None,
        [word, step] => caught_in(word, step),
        [_, _, _, ..] => None,
    }
}

/// Whether these values are a step, which may stand in a catch.
fn is_step_in(items: &[Json]) -> bool
    ensures { result ≡ spec.is_step_in (items_view items.now) }
{
    match caught(items) {
        Some(inner) => kind_of(inner).is_some(),
        None => kind_of(items).is_some(),
    }
}

#[tactic(auto, unfolding(crate::specs::Build::action_in))]
fn action_in(
    alloc: Global,
    names: &mut Names,
    items: &[Json],
) -> Result<Action, OrMemory<ScriptFault>>
    ensures gives { Gives (λ action. (action, names.new)) result
        (build.action_in names.old (items_view items.now)) }
    ensures kept { Extends names.old names.new }
{
    let Some(kind) = kind_of(items) else {
        return bad();
    };
    let Some((_, values)) = items.split_first() else {
        return bad();
    };
    let mut parts = Parts::none(alloc);
    parts.read_all(alloc, names, kind.row().parts, values)?;
    Ok(kind.action(parts))
}

fn step_in(alloc: Global, names: &mut Names, items: &[Json]) -> Result<Step, OrMemory<ScriptFault>>
    ensures gives { Gives (λ step. (step, names.new)) result
        (build.step_in names.old (items_view items.now)) }
    ensures kept { Extends names.old names.new }
{
    let inner = caught(items);
    let action = action_in(alloc, names, inner.unwrap_or(items))?;
    Ok(Step {
        is_catch: inner.is_some(),
        action,
    })
}

impl Item for Step {
    ghost test = { spec.is_step };

    ghost form = { build.step_of };

    fn is_in(value: &Json) -> bool {
        match value {
            Json::Array(items) => is_step_in(items.as_slice()),
            _ => false,
        }
    }

    fn read(alloc: Global, names: &mut Names, value: &Json) -> Result<Step, OrMemory<ScriptFault>> {
        match value {
            Json::Array(items) => step_in(alloc, names, items.as_slice()),
            _ => bad(),
        }
    }
}

/// Whether a value is a step.
pub fn is_step(value: &Json) -> bool
    ensures { result ≡ spec.is_step (view value.now) }
{
    Step::is_in(value)
}

/// Whether each of these values is a step.
pub fn are_steps(items: &[Json]) -> bool
    ensures { result ≡ spec.are_steps (items_view items.now) }
{
    are_all::<Step>(items)
}
