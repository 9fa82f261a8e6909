//! The hint for the bytes of a deployment.
ghost use Rattle.std.specs.Prelude.{◌≡◌, false, Some, IsTrue, IsOk, IfOk, IfErr, IfSome, IsErrAnd};
ghost use Rattle.std.specs.Str.{is_utf8};
ghost use Rattle.serde_json.specs.View.{view};
ghost use Rattle.cdi_form.specs.Json.{json_in};
ghost use Rattle.cdi_deploy.specs.Reading.{is_too_long, is_no_text};
ghost use Rattle.cdi_positions.specs.Position.{IsPositionIn};
ghost use Rattle.cdi_prepare.specs.Hint as spec;

use crate::bad_steps::first_bad_step;
use crate::hint::{Hint, Mistake};
use crate::long_lists::first_long_list;
use crate::syntax::syntax_mistake;
use cdi_base::OrMemory;
use cdi_deploy::reading::MAX_BYTES;
use cdi_deploy::{ReadFault, deployment_of, lists_of};
use cdi_form::{Kind, Part};
use cdi_form_mistakes::{form_mistake, name_mistake, number_mistake};
use cdi_positions::{Position, position_after, position_of};
use serde_json::Value as Json;
use std::alloc::{AllocError, Global};

/// What stands at the root.
const ROOT: Part = Part::Object(Kind::Deployment);

/// The JSON value that bytes are, or else what is wrong with them as a text.
#[tactic(auto, unfolding(cdi_form::specs::Json::json_in))]
fn value_in(alloc: Global, bytes: &[u8]) -> Result<Json, OrMemory<Hint>>
    ensures value { IfOk result (λ value. json_in bytes.now ≡ Some (view value)) }
    ensures place { IfErr result (spec.IsNoValue bytes.now) }
    ensures no_text { is_utf8 bytes.now ≡ false → IsErrAnd result spec.HasPlace }
{
    let text = match std::str::from_utf8(bytes) {
        Ok(text) => text,
        Err(error) => {
            let (front, _) = bytes.split_at(error.valid_up_to());
            return Err(OrMemory::Fault(Hint {
                position: Some(position_after(front)),
                mistake: syntax_mistake(bytes, false),
            }));
        }
    };
    match Json::from_str(alloc, text) {
        Ok(value) => Ok(value),
        Err(error) => if error.is_memory() {
            Err(OrMemory::Memory)
        } else {
            Err(OrMemory::Fault(Hint {
                position: Some(Position {
                    line: error.line(),
                    // The library tells 0 if it read nothing of the line.
                    column: error.column().max(1),
                }),
                mistake: syntax_mistake(bytes, true),
            }))
        },
    }
}

/// What is wrong with the first number that isn't whole.
fn bad_number(alloc: Global, value: &Json) -> Result<Option<Mistake>, AllocError>
    ensures { IfOk result (λ m. m ≡ spec.bad_number (view value.now)) }
{
    Ok(number_mistake(alloc, value)?.map(Mistake::Form))
}

/// What is wrong at the first place that isn't of the form.
fn bad_form(alloc: Global, value: &Json) -> Result<Option<Mistake>, AllocError>
    ensures { IfOk result (λ m. m ≡ spec.bad_form (view value.now)) }
{
    Ok(form_mistake(alloc, value, ROOT)?.map(Mistake::Form))
}

/// The first text of a value that stands in the place of a name and is none.
fn bad_name(alloc: Global, value: &Json) -> Result<Option<Mistake>, AllocError>
    ensures { IfOk result (λ m. m ≡ spec.bad_name (view value.now)) }
{
    Ok(name_mistake(alloc, value, ROOT)?.map(Mistake::Form))
}

/// The list of a value that is too long. There is none where the names are too many for their table.
fn long_list(alloc: Global, value: &Json) -> Result<Option<Mistake>, AllocError>
    ensures { IfOk result (λ m. m ≡ spec.long_list (view value.now)) }
{
    match lists_of(alloc, value) {
        Ok(deployment) => first_long_list(alloc, &deployment),
        Err(OrMemory::Fault(_)) => Ok(None),
        Err(OrMemory::Memory) => Err(AllocError),
    }
}

/// What is wrong with a value.
#[tactic(auto, unfolding(crate::specs::Hint::mistake_of))]
fn mistake_of(alloc: Global, value: &Json) -> Result<Option<Mistake>, AllocError>
    ensures { IfOk result (λ m. m ≡ spec.mistake_of (view value.now)) }
{
    match deployment_of(alloc, value) {
        Ok(deployment) => first_bad_step(alloc, &deployment),
        Err(OrMemory::Fault(ReadFault::BadNumber)) => bad_number(alloc, value),
        Err(OrMemory::Fault(ReadFault::Shape(_))) => bad_form(alloc, value),
        Err(OrMemory::Fault(ReadFault::BadName)) => bad_name(alloc, value),
        Err(OrMemory::Fault(ReadFault::TooMany)) => long_list(alloc, value),
        Err(OrMemory::Fault(_)) => Ok(None),
        Err(OrMemory::Memory) => Err(AllocError),
    }
}

/// The place of what is wrong with a value.
fn path_of(mistake: &Mistake) -> Option<&str> {
    match mistake {
        Mistake::Form(placed) => Some(placed.path.as_str()),
        Mistake::List { path, .. } => Some(path.as_str()),
        Mistake::Step { path, .. } => Some(path.as_str()),
        _ => None,
    }
}

/// Where in a text that stands which is wrong.
fn place_of(bytes: &[u8], mistake: &Mistake) -> Option<Position>
    ensures { IfSome result (IsPositionIn bytes.now) }
{
    match path_of(mistake) {
        Some(path) => position_of(bytes, path),
        None => None,
    }
}

/// The hint for the value of a text.
fn hint_of(alloc: Global, bytes: &[u8], value: &Json) -> Result<Option<Hint>, AllocError>
    ensures { IfOk result (spec.IsHintOf bytes.now (view value.now)) }
{
    match mistake_of(alloc, value)? {
        Some(mistake) => Ok(Some(Hint {
            position: place_of(bytes, &mistake),
            mistake,
        })),
        None => Ok(None),
    }
}

/// The hint for the bytes of a deployment, if there is one. What is wrong is the text itself exactly where the bytes are at most
/// [`MAX_BYTES`] and no JSON text in UTF-8; a [`Mistake::Form`] exactly where [`cdi_deploy::read`] answers
/// [`ReadFault::BadNumber`], [`ReadFault::Shape`] or [`ReadFault::BadName`]; a [`Mistake::List`] exactly where it answers
/// [`ReadFault::TooMany`] because of a list; a [`Mistake::Step`] only where it gives a deployment whose first script that isn't
/// one has a step that is none. An error where a growth was refused, which is neither for too many bytes nor for bytes that
/// aren't UTF-8.
pub fn hint_for(alloc: Global, bytes: &[u8]) -> Result<Option<Hint>, AllocError>
    ensures gives { IfOk result (λ hint. spec.IsHintFor bytes.now hint) }
    ensures too_long { IsTrue (is_too_long bytes.now) → IsOk result }
    ensures no_text { IsTrue (is_no_text bytes.now) → IsOk result }
{
    if bytes.len() > MAX_BYTES {
        return Ok(None);
    }
    match value_in(alloc, bytes) {
        Ok(value) => hint_of(alloc, bytes, &value),
        Err(OrMemory::Fault(hint)) => Ok(Some(hint)),
        Err(OrMemory::Memory) => Err(AllocError),
    }
}
