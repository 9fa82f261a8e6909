//! What is told of the injection points of an element.
ghost use Rattle.std.specs.Prelude.{◌≡◌, ◌++◌, string_bytes, IfOk, OnOk};
ghost use Rattle.std.specs.Option.{option_copied};
ghost use Rattle.cdi_problem_hints.specs.Points as spec;
ghost use Rattle.cdi_problems.specs.Elements.{element_of};

use crate::asked::{Asked, asked_by};
use crate::candidate::add_candidates;
use cdi_base::{Name, Names, Use};
use cdi_candidates::candidates;
use cdi_problems::{Element, name_text};
use cdi_resolve::BeanTables;
use std::alloc::{AllocError, Global};

/// Qualifiers as they are told of a point.
fn quals_text(alloc: Global, names: &Names, quals: &[Use]) -> Result<String, AllocError>
    ensures { IfOk result (λ text.
        string_bytes text ≡ spec.quals_text names.now quals.now) }
{
    let mut text = String::new(alloc);
    for qual in quals {
        text.push_str(" @")?;
        text.push_str(name_text(names, qual.name))?;
    }
    Ok(text)
}

/// What a point asks for: its type, and its qualifiers.
#[tactic(auto, unfolding(crate::specs::Points::point_text))]
pub(crate) fn point_text(
    alloc: Global,
    names: &Names,
    ty: Name,
    quals: &[Use],
) -> Result<String, AllocError>
    ensures { IfOk result (λ text.
        string_bytes text ≡ spec.point_text names.now ty quals.now) }
{
    let ty = name_text(names, ty);
    let quals = quals_text(alloc, names, quals)?;
    format!(in alloc; "; it asks for {ty}{quals}")
}

/// Adds the beans that are left for what a point asks for, by the tables of the deployment, if there are any.
fn add_left(
    alloc: Global,
    names: &Names,
    tables: Option<&BeanTables>,
    point: &Asked<'_>,
    hint: &mut String,
) -> Result<(), AllocError>
    ensures { OnOk result (string_bytes hint.new ≡ string_bytes hint.old
        ++ spec.left_text names.now (option_copied tables.entry) point.now) }
{
    match tables {
        Some(tables) => {
            let places = candidates(alloc, tables, point.ty(), point.quals())?;
            add_candidates(alloc, names, places.as_slice(), hint)
        }
        None => Ok(()),
    }
}

fn add_point(
    alloc: Global,
    names: &Names,
    tables: Option<&BeanTables>,
    point: &Asked<'_>,
    hint: &mut String,
) -> Result<(), AllocError>
    ensures { OnOk result (string_bytes hint.new ≡ string_bytes hint.old
        ++ spec.asked_text names.now (option_copied tables.entry) point.now) }
{
    let text = point_text(alloc, names, point.ty(), point.quals())?;
    hint.push_str(&text)?;
    add_left(alloc, names, tables, point, hint)
}

fn add_each(
    alloc: Global,
    names: &Names,
    tables: Option<&BeanTables>,
    points: &[Asked<'_>],
    hint: &mut String,
) -> Result<(), AllocError>
    ensures { OnOk result (string_bytes hint.new ≡ string_bytes hint.old
        ++ spec.asked_texts names.now (option_copied tables.entry) points.now) }
{
    for point in points {
        add_point(alloc, names, tables, point, hint)?;
    }
    Ok(())
}

/// Adds what the injection points of an element ask for (Jakarta CDI 4.0, *Injection points*). With the tables of the deployment come
/// the beans that are left for each, if they are several.
pub(crate) fn add_points(
    alloc: Global,
    names: &Names,
    tables: Option<&BeanTables>,
    element: &Element<'_>,
    hint: &mut String,
) -> Result<(), AllocError>
    ensures { OnOk result (string_bytes hint.new ≡ string_bytes hint.old
        ++ spec.points_text names.now (option_copied tables.entry) (element_of element.now)) }
{
    let points = asked_by(alloc, element)?;
    add_each(alloc, names, tables, points.as_slice(), hint)
}
