//! The cycle that a dependent bean stands on which needs itself.
ghost use Rattle.std.specs.Prelude.{◌≡◌, ◌++◌, string_bytes, IfOk, OnOk};
ghost use Rattle.cdi_candidates.specs.Candidates as candidates;
ghost use Rattle.cdi_cycle_hints.specs.Cycle as spec;
ghost use Rattle.cdi_problems.specs.Places.{same_place};

use crate::needs::Needs;
use crate::told_cycle::told_cycle;
use cdi_base::{Names, Place, Seq};
use cdi_beans::Bean;
use cdi_candidates::place_of;
use cdi_problems::PlaceText;
use std::alloc::{AllocError, Global};

fn is_at(bean: &Bean, place: &Place) -> bool
    ensures { result ≡ same_place (candidates.place_of bean.now) place.now }
{
    place_of(bean) == *place
}

/// The index of the first bean that is declared at a place.
fn bean_at(beans: &[Bean], place: &Place) -> Option<usize>
    ensures { result ≡ spec.bean_at beans.now place.now }
{
    beans.iter().position(|bean| is_at(bean, place))
}

/// The beans on a cycle through the one at a place, by their indices, if it stands on one.
fn cycle_of(
    alloc: Global,
    needs: &Needs,
    beans: &[Bean],
    place: &Place,
) -> Result<Seq<usize>, AllocError>
    ensures { IfOk result (λ cycle.
        cycle ≡ spec.cycle_of needs.now beans.now place.now) }
{
    let Some(bean) = bean_at(beans, place) else {
        return Ok(Seq::empty(alloc));
    };
    told_cycle(alloc, needs.rows(), bean)
}

/// The place of the bean with an index.
fn text_at(alloc: Global, names: &Names, beans: &[Bean], index: usize) -> Result<String, AllocError>
    ensures { IfOk result (λ text.
        string_bytes text ≡ spec.text_at names.now beans.now index) }
{
    let Some(bean) = beans.get(index) else {
        return Ok(String::new(alloc));
    };
    let place = place_of(bean);
    let place = PlaceText {
        names,
        place: &place,
    };
    format!(in alloc; "{place}")
}

/// The first bean of a cycle.
fn first_text(
    alloc: Global,
    names: &Names,
    beans: &[Bean],
    index: usize,
) -> Result<String, AllocError>
    ensures { IfOk result (λ text.
        string_bytes text ≡ spec.first_text names.now beans.now index) }
{
    let bean = text_at(alloc, names, beans, index)?;
    format!(in alloc; "; the cycle is {bean}")
}

fn other_text(
    alloc: Global,
    names: &Names,
    beans: &[Bean],
    index: usize,
) -> Result<String, AllocError>
    ensures { IfOk result (λ text.
        string_bytes text ≡ spec.other_text names.now beans.now index) }
{
    let bean = text_at(alloc, names, beans, index)?;
    format!(in alloc; ", {bean}")
}

fn add_others(
    alloc: Global,
    names: &Names,
    beans: &[Bean],
    indices: &[usize],
    hint: &mut String,
) -> Result<(), AllocError>
    ensures { OnOk result (string_bytes hint.new ≡ string_bytes hint.old
        ++ spec.others_text names.now beans.now indices.now) }
{
    for index in indices {
        let other = other_text(alloc, names, beans, *index)?;
        hint.push_str(&other)?;
    }
    Ok(())
}

fn add_beans(
    alloc: Global,
    names: &Names,
    beans: &[Bean],
    indices: &[usize],
    hint: &mut String,
) -> Result<(), AllocError>
    ensures { OnOk result (string_bytes hint.new ≡ string_bytes hint.old
        ++ spec.beans_text names.now beans.now indices.now) }
{
    match indices {
        [] => Ok(()),
        [first, others @ ..] => {
            let first = first_text(alloc, names, beans, *first)?;
            hint.push_str(&first)?;
            add_others(alloc, names, beans, others, hint)
        }
    }
}

/// Adds the beans on a cycle of dependent beans that need each other, from the one at a place back to it, if it stands on one
/// (Jakarta CDI 4.0, *Dependent pseudo-scope*). Needs that a bean inherits, and those of interceptors, of disposers and for the bean
/// that declares a producer, aren't looked at: of a cycle that goes by one of these nothing is told. The one error is
/// [`AllocError`], if a growth was refused.
pub fn add_needs_cycle(
    alloc: Global,
    names: &Names,
    beans: &[Bean],
    needs: &Needs,
    place: &Place,
    hint: &mut String,
) -> Result<(), AllocError>
    ensures { OnOk result (string_bytes hint.new ≡ string_bytes hint.old
        ++ spec.cycle_text names.now beans.now needs.now place.now) }
{
    let cycle = cycle_of(alloc, needs, beans, place)?;
    add_beans(alloc, names, beans, cycle.as_slice(), hint)
}
