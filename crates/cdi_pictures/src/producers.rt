//! The producers of a picture.
ghost use Rattle.std.specs.Prelude.{◌≡◌, ◌++◌, string_bytes, OnOk};
ghost use Rattle.cdi_pictures.specs.Producers as spec;
ghost use Rattle.cdi_problems.specs.Elements.{element_of, shown};

use crate::edge::{Edge, Look, add_edge};
use cdi_base::{Names, Place};
use cdi_deployment::{Class, Member};
use cdi_problems::{Element, PlaceText, name_text};
use std::alloc::{AllocError, Global};

fn is_producer(member: &Member) -> bool
    ensures { result ≡ spec.is_producer member.now }
{
    matches!(member, Member::Producer(_) | Member::ProducerField(_))
}

/// Adds the edge from a class to a product.
fn add_edge_of(
    alloc: Global,
    names: &Names,
    class: &Class,
    member: &Member,
    text: &mut String,
) -> Result<(), AllocError>
    ensures { OnOk result (string_bytes text.new ≡ string_bytes text.old
        ++ spec.producer_line names.now class.now member.now) }
{
    let place = Place::Member {
        class: class.name,
        member: member.name(),
    };
    let place = PlaceText {
        names,
        place: &place,
    };
    let product = format!(in alloc; "{place}")?;
    let edge = Edge {
        source: name_text(names, class.name),
        target: &product,
        label: "produces",
        look: Look::Dotted,
    };
    add_edge(alloc, &edge, text)
}

fn add_producer(
    alloc: Global,
    names: &Names,
    element: &Element<'_>,
    text: &mut String,
) -> Result<(), AllocError>
    ensures { OnOk result (string_bytes text.new ≡ string_bytes text.old
        ++ spec.producer_text names.now (element_of element.now)) }
{
    match element {
        Element::Member { class, member, .. } => {
            if class.bean.is_some() && is_producer(member) {
                return add_edge_of(alloc, names, class, member, text);
            }
            Ok(())
        }
        _ => Ok(()),
    }
}

/// Adds the producers (Jakarta CDI 4.0, *Producer methods*, *Producer fields*) of the classes that are beans.
pub(crate) fn add_producers(
    alloc: Global,
    names: &Names,
    elements: &[Element<'_>],
    text: &mut String,
) -> Result<(), AllocError>
    ensures { OnOk result (string_bytes text.new ≡ string_bytes text.old
        ++ spec.producers_text names.now (shown elements.now)) }
{
    for element in elements {
        add_producer(alloc, names, element, text)?;
    }
    Ok(())
}
