//! The names of an element that aren't declared, or are of the wrong kind.
ghost use Rattle.std.specs.Prelude.{◌≡◌, IfOk};
ghost use Rattle.cdi_deployment.specs.Lists as lists;
ghost use Rattle.cdi_name_uses.specs.Unknown as spec;
ghost use Rattle.cdi_problems.specs.Elements.{element_of};

use crate::group::group_names;
use crate::name_use::{NameUse, uses_of};
use cdi_base::{Name, Seq};
use cdi_deployment::Deployment;
use cdi_problems::Element;
use std::alloc::{AllocError, Global};

fn stands_in(names: &[Name], name: Name) -> bool
    ensures { result ≡ lists.stands_in names.now name }
{
    names.iter().any(|other| *other == name)
}

/// Whether a name that an element uses is of the group that it has to be of.
fn is_known(
    alloc: Global,
    deployment: &Deployment,
    element: &Element<'_>,
    used: &NameUse,
) -> Result<bool, AllocError>
    ensures { IfOk result (λ known.
        known ≡ spec.is_known deployment.now (element_of element.now) used.now) }
{
    let names = group_names(alloc, deployment, element, used.group)?;
    Ok(stands_in(names.as_slice(), used.name))
}

/// Those of some names that an element uses that aren't of the groups that they have to be of.
pub fn unknown_among(
    alloc: Global,
    deployment: &Deployment,
    element: &Element<'_>,
    uses: &[NameUse],
) -> Result<Seq<NameUse>, AllocError>
    ensures { IfOk result (λ unknown.
        unknown ≡ spec.unknown_among deployment.now (element_of element.now) uses.now) }
{
    let mut unknown = Seq::empty(alloc);
    for used in uses {
        if !is_known(alloc, deployment, element, used)? {
            unknown.push(*used)?;
        }
    }
    Ok(unknown)
}

/// The names that an element of a deployment uses and that aren't declared in their groups, in their order (Jakarta CDI 4.0,
/// *Problems detected automatically by the container*).
pub fn unknown_names(
    alloc: Global,
    deployment: &Deployment,
    element: &Element<'_>,
) -> Result<Seq<NameUse>, AllocError>
    ensures { IfOk result (λ unknown.
        unknown ≡ spec.unknown_names deployment.now (element_of element.now)) }
{
    let uses = uses_of(alloc, element)?;
    unknown_among(alloc, deployment, element, uses.as_slice())
}
