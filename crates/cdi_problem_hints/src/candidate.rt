//! Beans among which a deployment doesn't decide: those that an ambiguous point leaves, and those that specialize one bean.
ghost use Rattle.std.specs.Prelude.{◌≡◌, ◌++◌, string_bytes, IfOk, OnOk};
ghost use Rattle.cdi_problem_hints.specs.Candidates as spec;

use cdi_base::{Names, Place};
use cdi_problems::PlaceText;
use std::alloc::{AllocError, Global};

/// The most beans that are told of those that are left for a point, or specialize one bean.
const MAX_TOLD: usize = 16;

/// The first of several places.
fn first_text(alloc: Global, names: &Names, place: &Place) -> Result<String, AllocError>
    ensures { IfOk result (λ text. string_bytes text ≡ spec.first_text names.now place.now) }
{
    let place = PlaceText { names, place };
    format!(in alloc; "; candidates are {place}")
}

fn other_text(alloc: Global, names: &Names, place: &Place) -> Result<String, AllocError>
    ensures { IfOk result (λ text. string_bytes text ≡ spec.other_text names.now place.now) }
{
    let place = PlaceText { names, place };
    format!(in alloc; ", {place}")
}

fn add_others(
    alloc: Global,
    names: &Names,
    places: &[Place],
    hint: &mut String,
) -> Result<(), AllocError>
    ensures { OnOk result (string_bytes hint.new ≡ string_bytes hint.old
        ++ spec.others_text names.now places.now) }
{
    for place in places {
        let other = other_text(alloc, names, place)?;
        hint.push_str(&other)?;
    }
    Ok(())
}

/// Adds these places, behind words that say what they are of.
fn add_told(
    alloc: Global,
    names: &Names,
    places: &[Place],
    hint: &mut String,
) -> Result<(), AllocError>
    ensures { OnOk result (string_bytes hint.new ≡ string_bytes hint.old
        ++ spec.told_text names.now places.now) }
{
    match places {
        [] => Ok(()),
        [first, others @ ..] => {
            let first = first_text(alloc, names, first)?;
            hint.push_str(&first)?;
            add_others(alloc, names, others, hint)
        }
    }
}

/// Adds how many more there are, if there are such.
fn add_rest(alloc: Global, count: usize, hint: &mut String) -> Result<(), AllocError>
    ensures { OnOk result
        (string_bytes hint.new ≡ string_bytes hint.old ++ spec.rest_text count) }
{
    if count == 0 {
        return Ok(());
    }
    let rest = format!(in alloc; " and {count} more")?;
    hint.push_str(&rest)
}

/// Adds the first [`MAX_TOLD`] of several places, and how many more there are.
fn add_several(
    alloc: Global,
    names: &Names,
    places: &[Place],
    hint: &mut String,
) -> Result<(), AllocError>
    ensures { OnOk result (string_bytes hint.new ≡ string_bytes hint.old
        ++ spec.several_text names.now places.now) }
{
    let told = places.len().min(MAX_TOLD);
    add_told(alloc, names, &places[..told], hint)?;
    add_rest(alloc, places.len() - told, hint)
}

/// Adds the places of the beans that are left for a point, or specialize one bean, if they are several.
pub(crate) fn add_candidates(
    alloc: Global,
    names: &Names,
    places: &[Place],
    hint: &mut String,
) -> Result<(), AllocError>
    ensures { OnOk result (string_bytes hint.new ≡ string_bytes hint.old
        ++ spec.candidates_text names.now places.now) }
{
    match places {
        [] | [_] => Ok(()),
        several => add_several(alloc, names, several, hint),
    }
}
