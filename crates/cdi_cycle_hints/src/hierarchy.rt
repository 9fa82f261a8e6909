//! The cycle that a type stands on which is its own supertype.
ghost use Rattle.std.specs.Prelude.{◌≡◌, ◌++◌, string_bytes, IfOk, OnOk};
ghost use Rattle.cdi_cycle_hints.specs.Hierarchy as spec;
ghost use Rattle.cdi_problems.specs.Elements.{element_of};
ghost use Rattle.cdi_types.specs.Nodes as nodes;

use crate::told_cycle::told_cycle;
use cdi_base::{Name, Names, Seq};
use cdi_deployment::Deployment;
use cdi_problems::{Element, name_text};
use cdi_types::{TypeDeclaration, declarations_of, supertype_graph};
use std::alloc::{AllocError, Global};

/// The place of the first declaration of a name, if it is declared.
fn place_of(types: &[TypeDeclaration], name: Name) -> Option<usize>
    ensures { result ≡ nodes.place_of types.now name }
{
    types.iter().position(|declared| declared.name == name)
}

/// The places of the types on a cycle through one, if it stands on one.
fn cycle_of(alloc: Global, types: &[TypeDeclaration], name: Name) -> Result<Seq<usize>, AllocError>
    ensures { IfOk result (λ places. places ≡ spec.cycle_of types.now name) }
{
    let Some(place) = place_of(types, name) else {
        return Ok(Seq::empty(alloc));
    };
    let rows = supertype_graph(alloc, types)?;
    told_cycle(alloc, rows.as_slice(), place)
}

/// The text of the name that is declared at a place.
fn name_at<'a>(names: &'a Names, types: &[TypeDeclaration], place: usize) -> &'a str
    ensures { result.now ≡ spec.name_at names.now types.now place }
{
    match types.get(place) {
        Some(declared) => name_text(names, declared.name),
        None => "",
    }
}

/// The first type of a cycle.
fn first_text(
    alloc: Global,
    names: &Names,
    types: &[TypeDeclaration],
    place: usize,
) -> Result<String, AllocError>
    ensures { IfOk result (λ text.
        string_bytes text ≡ spec.first_text names.now types.now place) }
{
    let name = name_at(names, types, place);
    format!(in alloc; "; the cycle is {name}")
}

fn add_names(
    names: &Names,
    types: &[TypeDeclaration],
    places: &[usize],
    hint: &mut String,
) -> Result<(), AllocError>
    ensures { OnOk result (string_bytes hint.new ≡ string_bytes hint.old
        ++ spec.names_text names.now types.now places.now) }
{
    for place in places {
        hint.push_str(", ")?;
        hint.push_str(name_at(names, types, *place))?;
    }
    Ok(())
}

fn add_cycle(
    alloc: Global,
    names: &Names,
    types: &[TypeDeclaration],
    places: &[usize],
    hint: &mut String,
) -> Result<(), AllocError>
    ensures { OnOk result (string_bytes hint.new ≡ string_bytes hint.old
        ++ spec.cycle_text names.now types.now places.now) }
{
    match places {
        [] => Ok(()),
        [first, others @ ..] => {
            let first = first_text(alloc, names, types, *first)?;
            hint.push_str(&first)?;
            add_names(names, types, others, hint)
        }
    }
}

/// Adds the types on a cycle through one, if it stands on one.
fn add_cycle_of(
    alloc: Global,
    deployment: &Deployment,
    name: Name,
    hint: &mut String,
) -> Result<(), AllocError>
    ensures { OnOk result (string_bytes hint.new ≡ string_bytes hint.old
        ++ spec.type_text deployment.now name) }
{
    let types = declarations_of(alloc, deployment)?;
    let places = cycle_of(alloc, types.as_slice(), name)?;
    let names = &deployment.names;
    add_cycle(alloc, names, types.as_slice(), places.as_slice(), hint)
}

/// Adds the types on a cycle through an interface or a class, if it stands on one (Jakarta CDI 4.0, *Bean types*), and nothing for
/// other elements. The one error is [`AllocError`], if a growth was refused.
pub fn add_hierarchy(
    alloc: Global,
    deployment: &Deployment,
    element: &Element<'_>,
    hint: &mut String,
) -> Result<(), AllocError>
    ensures { OnOk result (string_bytes hint.new ≡ string_bytes hint.old
        ++ spec.hierarchy_text deployment.now (element_of element.now)) }
{
    match element {
        Element::Interface(interface) => add_cycle_of(alloc, deployment, interface.name, hint),
        Element::Class { class, .. } => add_cycle_of(alloc, deployment, class.name, hint),
        _ => Ok(()),
    }
}
