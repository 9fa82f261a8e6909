//! The beans that nearly have what a point asks for.
ghost use Rattle.std.specs.Prelude.{◌≡◌, ◌++◌, string_bytes, IfOk, OnOk};
ghost use Rattle.std.specs.Option.{option_copied};
ghost use Rattle.cdi_problem_hints.specs.Near as spec;
ghost use Rattle.cdi_problems.specs.Elements.{element_of};

use crate::asked::{Asked, asked_by};
use crate::point::point_text;
use crate::subject::Subject;
use cdi_base::{Name, Names};
use cdi_candidates::{Lack, NearBean, near_beans};
use cdi_problems::{Element, PlaceText, name_text};
use std::alloc::{AllocError, Global};

/// The most beans that are told as near to what a point asks for.
const MAX_NEAR: usize = 5;

/// What a bean lacks that lacks the qualifiers of these names.
fn lacked_text(alloc: Global, names: &Names, lacked: &[Name]) -> Result<String, AllocError>
    ensures { IfOk result (λ text.
        string_bytes text ≡ spec.lacked_text names.now lacked.now) }
{
    let mut text = String::from_str(alloc, "without")?;
    for name in lacked {
        text.push_str(" @")?;
        text.push_str(name_text(names, *name))?;
    }
    Ok(text)
}

fn lack_text(alloc: Global, names: &Names, lack: &Lack) -> Result<String, AllocError>
    ensures { IfOk result (λ text. string_bytes text ≡ spec.lack_text names.now lack.now) }
{
    match lack {
        Lack::Qualifiers(lacked) => lacked_text(alloc, names, lacked.as_slice()),
        Lack::NotSelected => String::from_str(alloc, "an alternative that isn't selected"),
        Lack::Specialized => String::from_str(alloc, "whose class another bean specializes"),
    }
}

fn near_sentence(alloc: Global, names: &Names, near: &NearBean) -> Result<String, AllocError>
    ensures { IfOk result (λ text. string_bytes text ≡ spec.near_sentence names.now near.now) }
{
    let lack = lack_text(alloc, names, &near.lack)?;
    let place = PlaceText {
        names,
        place: &near.place,
    };
    format!(in alloc; "; near is {place}, {lack}")
}

fn add_sentences(
    alloc: Global,
    names: &Names,
    near: &[NearBean],
    hint: &mut String,
) -> Result<(), AllocError>
    ensures { OnOk result (string_bytes hint.new ≡ string_bytes hint.old
        ++ spec.near_sentences names.now near.now) }
{
    for bean in near {
        let sentence = near_sentence(alloc, names, bean)?;
        hint.push_str(&sentence)?;
    }
    Ok(())
}

/// Adds how many more beans are near, if there are such.
fn add_rest(alloc: Global, count: usize, hint: &mut String) -> Result<(), AllocError>
    ensures { OnOk result
        (string_bytes hint.new ≡ string_bytes hint.old ++ spec.rest_text count) }
{
    if count == 0 {
        return Ok(());
    }
    let rest = format!(in alloc; "; and {count} more are near")?;
    hint.push_str(&rest)
}

/// Adds the first [`MAX_NEAR`] of the beans that are near, and how many more there are.
fn add_near(
    alloc: Global,
    names: &Names,
    near: &[NearBean],
    hint: &mut String,
) -> Result<(), AllocError>
    ensures { OnOk result
        (string_bytes hint.new ≡ string_bytes hint.old ++ spec.near_text names.now near.now) }
{
    let told = near.len().min(MAX_NEAR);
    add_sentences(alloc, names, &near[..told], hint)?;
    add_rest(alloc, near.len() - told, hint)
}

/// Adds the beans that are near to what a point asks for, by the tables of the deployment, if there are any.
fn add_near_to(
    alloc: Global,
    subject: &Subject<'_>,
    point: &Asked<'_>,
    hint: &mut String,
) -> Result<(), AllocError>
    ensures { OnOk result (string_bytes hint.new ≡ string_bytes hint.old
        ++ spec.near_to subject.now.deployment.now (option_copied subject.now.tables)
        point.now) }
{
    let deployment = subject.deployment;
    match subject.tables {
        Some(tables) => {
            let selected = deployment.selected.as_slice();
            let near = near_beans(alloc, tables, selected, point.ty(), point.quals())?;
            add_near(alloc, &deployment.names, near.as_slice(), hint)
        }
        None => Ok(()),
    }
}

fn add_point(
    alloc: Global,
    subject: &Subject<'_>,
    point: &Asked<'_>,
    hint: &mut String,
) -> Result<(), AllocError>
    ensures { OnOk result (string_bytes hint.new ≡ string_bytes hint.old
        ++ spec.unsatisfied_text subject.now.deployment.now (option_copied subject.now.tables)
        point.now) }
{
    let names = &subject.deployment.names;
    let text = point_text(alloc, names, point.ty(), point.quals())?;
    hint.push_str(&text)?;
    add_near_to(alloc, subject, point, hint)
}

fn add_each(
    alloc: Global,
    subject: &Subject<'_>,
    points: &[Asked<'_>],
    hint: &mut String,
) -> Result<(), AllocError>
    ensures { OnOk result (string_bytes hint.new ≡ string_bytes hint.old
        ++ spec.unsatisfied_texts subject.now.deployment.now (option_copied subject.now.tables)
        points.now) }
{
    for point in points {
        add_point(alloc, subject, point, hint)?;
    }
    Ok(())
}

/// Adds what the injection points of an element ask for (Jakarta CDI 4.0, *Injection points*), and the beans that are near to that.
pub(crate) fn add_unsatisfied(
    alloc: Global,
    subject: &Subject<'_>,
    element: &Element<'_>,
    hint: &mut String,
) -> Result<(), AllocError>
    ensures { OnOk result (string_bytes hint.new ≡ string_bytes hint.old
        ++ spec.unsatisfied_in subject.now.deployment.now (option_copied subject.now.tables)
        (element_of element.now)) }
{
    let points = asked_by(alloc, element)?;
    add_each(alloc, subject, points.as_slice(), hint)
}
