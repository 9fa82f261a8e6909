//! The references by which a body reaches another instance, read from JSON.
ghost use Rattle.std.specs.Prelude.{◌≡◌};
ghost use Rattle.cdi_base.specs.Name.{Extends};
ghost use Rattle.cdi_base.specs.Reading.{Gives};
ghost use Rattle.serde_json.specs.View.{view};
ghost use Rattle.cdi_script.specs.Via as spec;

use crate::fault::ScriptFault;
use crate::reading::{bad, count_of, is_count, is_named, name_of};
use cdi_base::{Names, OrMemory, Via};
use cdi_form::is_word;
use serde_json::Value as Json;

#[tactic(auto, unfolding(crate::specs::Via::is_via_pair))]
fn is_via_pair(word: &Json, value: &Json) -> bool
    ensures { result ≡ spec.is_via_pair (view word.now) (view value.now) }
{
    if is_word(word, "field") {
        return is_named(value);
    }
    if is_word(word, "param") {
        return is_count(value);
    }
    if is_word(word, "local") {
        return is_count(value);
    }
    false
}

/// Whether a value is a reference.
pub(crate) fn is_via(value: &Json) -> bool
    ensures { result ≡ spec.is_via (view value.now) }
{
    match value {
        Json::Array(items) => match items.as_slice() {
            [] => false,
            [_] => false,
            [word, value] => is_via_pair(word, value),
            [_, _, _, ..] => false,
        },
        _ => false,
    }
}

#[tactic(auto, unfolding(crate::specs::Via::via_pair_of))]
fn via_pair_of(names: &mut Names, word: &Json, value: &Json) -> Result<Via, OrMemory<ScriptFault>>
    ensures gives { Gives (λ via. (via, names.new)) result
        (spec.via_pair_of names.old (view word.now) (view value.now)) }
    ensures kept { Extends names.old names.new }
{
    if is_word(word, "field") {
        let name = name_of(names, value)?;
        return Ok(Via::Field(name));
    }
    if is_word(word, "param") {
        return match count_of(value) {
            Some(count) => Ok(Via::Param(count)),
            None => bad(),
        };
    }
    if is_word(word, "local") {
        return match count_of(value) {
            Some(count) => Ok(Via::Local(count)),
            None => bad(),
        };
    }
    bad()
}

/// The reference that a value is.
pub(crate) fn via_of(names: &mut Names, value: &Json) -> Result<Via, OrMemory<ScriptFault>>
    ensures gives { Gives (λ via. (via, names.new)) result
        (spec.via_of names.old (view value.now)) }
    ensures kept { Extends names.old names.new }
{
    match value {
        Json::Array(items) => match items.as_slice() {
            [] => bad(),
            [_] => bad(),
            [word, value] => via_pair_of(names, word, value),
            [_, _, _, ..] => bad(),
        },
        _ => bad(),
    }
}

#[tactic(auto, unfolding(crate::specs::Via::local_in))]
fn local_in(word: &Json, value: &Json) -> Option<u32>
    ensures { result ≡ spec.local_in (view word.now) (view value.now) }
{
    if is_word(word, "local") {
        return count_of(value);
    }
    None
}

/// The number of the local that a value refers to, if it is a reference to a local.
pub(crate) fn local_of(value: &Json) -> Option<u32>
    ensures { result ≡ spec.local_of (view value.now) }
{
    match value {
        Json::Array(items) => match items.as_slice() {
            [] => None,
            [_] => None,
            [word, value] => local_in(word, value),
            [_, _, _, ..] => None,
        },
        _ => None,
    }
}
