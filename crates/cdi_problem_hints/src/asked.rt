//! What the injection points of an element ask for.
ghost use Rattle.std.specs.Prelude.{◌≡◌, IfOk};
ghost use Rattle.cdi_problem_hints.specs.Asked as spec;
ghost use Rattle.cdi_problems.specs.Elements.{element_of};

use cdi_base::{Name, Seq, Use};
use cdi_deployment::Point;
use cdi_problems::Element;
use std::alloc::{AllocError, Global};
use std::marker::Model;

/// What an injection point asks for (Jakarta CDI 4.0, *Injection points*). Contracts see it as a parameter that asks for it.
#[derive(Drop)]
pub(crate) struct Asked<'a> {
    /// The required type.
    ty: Name,
    /// The required qualifiers, as they were written.
    quals: &'a [Use],
}

impl<'a> Model for Asked<'a> {
    ghost use Rattle.cdi_deployment.specs.declared.deployment.Point.{Point};

    ghost Value = { Point };

    ghost view = { λ a. record { ty = a.ty; quals = a.quals.now } };
}

impl<'a> Asked<'a> {
    /// The required type.
    pub(crate) fn ty(&self) -> Name
        ensures { result ≡ self.now.ty }
    {
        self.ty
    }

    /// The required qualifiers, as they were written.
    pub(crate) fn quals(&self) -> &'a [Use]
        ensures { result.now ≡ self.now.quals }
    {
        self.quals
    }
}

/// The one point that an injected field is.
fn only<'a>(alloc: Global, ty: Name, quals: &'a [Use]) -> Result<Seq<Asked<'a>>, AllocError>
    ensures { IfOk result (λ asked. asked ≡ spec.only ty quals.now) }
{
    let mut asked = Seq::empty(alloc);
    asked.push(Asked { ty, quals })?;
    Ok(asked)
}

fn each<'a>(alloc: Global, params: &'a [Point]) -> Result<Seq<Asked<'a>>, AllocError>
    ensures { IfOk result (λ asked. asked ≡ params.now) }
{
    let mut asked = Seq::empty(alloc);
    for point in params {
        asked.push(Asked {
            ty: point.ty,
            quals: point.quals.as_slice(),
        })?;
    }
    Ok(asked)
}

/// What the injection points of an element ask for (Jakarta CDI 4.0, *Injection points*): an injected field is one, and so is each
/// injected parameter.
pub(crate) fn asked_by<'a>(
    alloc: Global,
    element: &Element<'a>,
) -> Result<Seq<Asked<'a>>, AllocError>
    ensures { IfOk result (λ asked. asked ≡ spec.points_of (element_of element.now)) }
{
    match element {
        Element::InjectedField { field, .. } => only(alloc, field.ty, field.quals.as_slice()),
        Element::InterceptorInjectedField { field, .. } => {
            only(alloc, field.ty, field.quals.as_slice())
        }
        Element::Constructor { constructor, .. } => each(alloc, constructor.params.as_slice()),
        Element::Member { member, .. } => each(alloc, member.params()),
        _ => Ok(Seq::empty(alloc)),
    }
}
