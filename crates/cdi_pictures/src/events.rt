//! The observers of a picture, by the events that they hear.
ghost use Rattle.std.specs.Prelude.{◌≡◌, ◌++◌, string_bytes, IfOk, OnOk};
ghost use Rattle.cdi_pictures.specs.Events as spec;
ghost use Rattle.cdi_problems.specs.Elements.{element_of, shown};

use crate::edge::{Edge, Look, add_edge};
use cdi_base::Names;
use cdi_deployment::{Class, Member, Observer};
use cdi_problems::{Element, name_text};
use std::alloc::{AllocError, Global};

/// The node of an event's type.
fn event_line(alloc: Global, ty: &str) -> Result<String, AllocError>
    ensures { IfOk result (λ line. string_bytes line ≡ spec.event_line ty.now) }
{
    format!(in alloc;
        "  \"event {ty}\" [label=\"{ty}\", shape=ellipse, style=solid, color=black];\n"
    )
}

/// Adds the edge from an event to the class that declares an observer.
fn add_hearing(
    alloc: Global,
    names: &Names,
    class: &Class,
    observer: &Observer,
    text: &mut String,
) -> Result<(), AllocError>
    ensures { OnOk result (string_bytes text.new ≡ string_bytes text.old
        ++ spec.hearing_line names.now class.now observer.now) }
{
    let ty = name_text(names, observer.ty);
    let event = format!(in alloc; "event {ty}")?;
    let edge = Edge {
        source: &event,
        target: name_text(names, class.name),
        label: name_text(names, observer.name),
        look: Look::Plain,
    };
    add_edge(alloc, &edge, text)
}

fn add_member(
    alloc: Global,
    names: &Names,
    class: &Class,
    member: &Member,
    text: &mut String,
) -> Result<(), AllocError>
    ensures { OnOk result (string_bytes text.new ≡ string_bytes text.old
        ++ spec.member_text names.now class.now member.now) }
{
    match member {
        Member::Observer(observer) => {
            let event = event_line(alloc, name_text(names, observer.ty))?;
            text.push_str(&event)?;
            add_hearing(alloc, names, class, observer, text)
        }
        _ => Ok(()),
    }
}

fn add_observer(
    alloc: Global,
    names: &Names,
    element: &Element<'_>,
    text: &mut String,
) -> Result<(), AllocError>
    ensures { OnOk result (string_bytes text.new ≡ string_bytes text.old
        ++ spec.observer_text names.now (element_of element.now)) }
{
    match element {
        Element::Member { class, member, .. } => add_member(alloc, names, class, member, text),
        _ => Ok(()),
    }
}

/// Adds the observers (Jakarta CDI 4.0, *Observer methods*): from the type of the event to the class that declares each.
pub(crate) fn add_observers(
    alloc: Global,
    names: &Names,
    elements: &[Element<'_>],
    text: &mut String,
) -> Result<(), AllocError>
    ensures { OnOk result (string_bytes text.new ≡ string_bytes text.old
        ++ spec.observers_text names.now (shown elements.now)) }
{
    for element in elements {
        add_observer(alloc, names, element, text)?;
    }
    Ok(())
}
