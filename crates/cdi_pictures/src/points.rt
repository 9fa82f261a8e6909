//! The injection points of a picture.
ghost use Rattle.std.specs.Prelude.{◌≡◌, ◌++◌, string_bytes, IfOk, OnOk};
ghost use Rattle.cdi_pictures.specs.Points as spec;
ghost use Rattle.cdi_problems.specs.Elements.{element_of, shown};

use crate::asker::{Asker, Drawing};
use crate::edge::{Edge, Look, add_edge};
use cdi_base::{Name, Names, Place, Use};
use cdi_candidates::candidates;
use cdi_deployment::Point;
use cdi_problems::{Element, PlaceText, name_text};
use std::alloc::{AllocError, Global};

/// How many of the beans that are left for a point are drawn.
const MOST_DRAWN: usize = 16;

/// What a point asks for: its type, and its qualifiers.
fn label_text(alloc: Global, names: &Names, ty: Name, quals: &[Use]) -> Result<String, AllocError>
    ensures { IfOk result (λ text.
        string_bytes text ≡ spec.label_text names.now ty quals.now) }
{
    let mut text = String::from_str(alloc, name_text(names, ty))?;
    for qual in quals {
        text.push_str(" @")?;
        text.push_str(name_text(names, qual.name))?;
    }
    Ok(text)
}

/// Adds the edge to a type that no bean has.
fn add_unknown(
    alloc: Global,
    asker: &Asker<'_>,
    ty: Name,
    label: &str,
    text: &mut String,
) -> Result<(), AllocError>
    ensures { OnOk result (string_bytes text.new ≡ string_bytes text.old
        ++ spec.unknown_line (spec.asker_of asker.now) ty label.now) }
{
    let names = asker.drawing.names;
    let ty = name_text(names, ty);
    let target = format!(in alloc; "?{ty}")?;
    let edge = Edge {
        source: name_text(names, asker.owner),
        target: &target,
        label,
        look: asker.look(),
    };
    add_edge(alloc, &edge, text)
}

/// Adds the edge to a bean.
fn add_bean_edge(
    alloc: Global,
    asker: &Asker<'_>,
    label: &str,
    look: Look,
    place: &Place,
    text: &mut String,
) -> Result<(), AllocError>
    ensures { OnOk result (string_bytes text.new ≡ string_bytes text.old
        ++ spec.bean_edge (spec.asker_of asker.now) label.now look place.now) }
{
    let names = asker.drawing.names;
    let place = PlaceText { names, place };
    let target = format!(in alloc; "{place}")?;
    let edge = Edge {
        source: name_text(names, asker.owner),
        target: &target,
        label,
        look,
    };
    add_edge(alloc, &edge, text)
}

fn add_bean_edges(
    alloc: Global,
    asker: &Asker<'_>,
    label: &str,
    look: Look,
    places: &[Place],
    text: &mut String,
) -> Result<(), AllocError>
    ensures { OnOk result (string_bytes text.new ≡ string_bytes text.old
        ++ spec.bean_edges (spec.asker_of asker.now) label.now look places.now) }
{
    for place in places {
        add_bean_edge(alloc, asker, label, look, place, text)?;
    }
    Ok(())
}

/// Adds the edge to a node that tells how many beans aren't drawn, if there are some.
#[tactic(auto, unfolding(crate::specs::Points::others_line))]
fn add_others(
    alloc: Global,
    asker: &Asker<'_>,
    label: &str,
    count: usize,
    text: &mut String,
) -> Result<(), AllocError>
    ensures { OnOk result (string_bytes text.new ≡ string_bytes text.old
        ++ spec.others_line (spec.asker_of asker.now) label.now count) }
{
    if count == 0 {
        return Ok(());
    }
    let target = format!(in alloc; "{count} more")?;
    let edge = Edge {
        source: name_text(asker.drawing.names, asker.owner),
        target: &target,
        label,
        look: asker.look(),
    };
    add_edge(alloc, &edge, text)
}

/// Adds an edge to each of several beans, of which the first [`MOST_DRAWN`] are drawn.
fn add_several(
    alloc: Global,
    asker: &Asker<'_>,
    label: &str,
    places: &[Place],
    text: &mut String,
) -> Result<(), AllocError>
    ensures { OnOk result (string_bytes text.new ≡ string_bytes text.old
        ++ spec.several_text (spec.asker_of asker.now) label.now places.now) }
{
    let drawn = places.len().min(MOST_DRAWN);
    add_bean_edges(alloc, asker, label, asker.look(), &places[..drawn], text)?;
    add_others(alloc, asker, label, places.len() - drawn, text)
}

/// Adds an edge to each bean that is left for a point.
fn add_left(
    alloc: Global,
    asker: &Asker<'_>,
    ty: Name,
    label: &str,
    places: &[Place],
    text: &mut String,
) -> Result<(), AllocError>
    ensures { OnOk result (string_bytes text.new ≡ string_bytes text.old
        ++ spec.left_text (spec.asker_of asker.now) ty label.now places.now) }
{
    match places {
        [] => add_unknown(alloc, asker, ty, label, text),
        [place] => add_bean_edge(alloc, asker, label, Look::Plain, place, text),
        several => add_several(alloc, asker, label, several, text),
    }
}

#[tactic(auto, unfolding(crate::specs::Points::asked_text))]
fn add_point(
    alloc: Global,
    asker: &Asker<'_>,
    ty: Name,
    quals: &[Use],
    text: &mut String,
) -> Result<(), AllocError>
    ensures { OnOk result (string_bytes text.new ≡ string_bytes text.old
        ++ spec.asked_text (spec.asker_of asker.now) ty quals.now) }
{
    let label = label_text(alloc, asker.drawing.names, ty, quals)?;
    let places = candidates(alloc, asker.drawing.tables, ty, quals)?;
    add_left(alloc, asker, ty, &label, places.as_slice(), text)
}

fn add_params(
    alloc: Global,
    asker: &Asker<'_>,
    params: &[Point],
    text: &mut String,
) -> Result<(), AllocError>
    ensures { OnOk result (string_bytes text.new ≡ string_bytes text.old
        ++ spec.params_text (spec.asker_of asker.now) params.now) }
{
    for point in params {
        add_point(alloc, asker, point.ty, point.quals.as_slice(), text)?;
    }
    Ok(())
}

fn add_element(
    alloc: Global,
    drawing: &Drawing<'_>,
    element: &Element<'_>,
    text: &mut String,
) -> Result<(), AllocError>
    ensures { OnOk result (string_bytes text.new ≡ string_bytes text.old
        ++ spec.element_text (spec.drawing_of drawing.now) (element_of element.now)) }
{
    match element {
        Element::InjectedField { class, field, .. } => {
            let asker = drawing.asker(class.name, element);
            add_point(alloc, &asker, field.ty, field.quals.as_slice(), text)
        }
        Element::InterceptorInjectedField {
            interceptor,
            field,
            ..
        } => {
            let asker = drawing.asker(interceptor.name, element);
            add_point(alloc, &asker, field.ty, field.quals.as_slice(), text)
        }
        Element::Constructor {
            class,
            constructor,
            ..
        } => {
            let asker = drawing.asker(class.name, element);
            add_params(alloc, &asker, constructor.params.as_slice(), text)
        }
        Element::Member { class, member, .. } => {
            let asker = drawing.asker(class.name, element);
            add_params(alloc, &asker, member.params(), text)
        }
        _ => Ok(()),
    }
}

/// Adds what is left for each injection point (Jakarta CDI 4.0, *Injection points*, *Typesafe resolution*): an edge from the class or
/// the interceptor that has the point to the bean, or to each of several, of which 16 are drawn; if none is left, to a node for the type.
pub(crate) fn add_points(
    alloc: Global,
    drawing: &Drawing<'_>,
    elements: &[Element<'_>],
    text: &mut String,
) -> Result<(), AllocError>
    ensures { OnOk result (string_bytes text.new ≡ string_bytes text.old
        ++ spec.points_text (spec.drawing_of drawing.now) (shown elements.now)) }
{
    for element in elements {
        add_element(alloc, drawing, element, text)?;
    }
    Ok(())
}
