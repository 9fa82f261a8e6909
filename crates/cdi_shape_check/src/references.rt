//! The references of a body, and what they lead to.
ghost use Rattle.std.specs.Prelude.{◌≡◌, option_map, slice_get};
ghost use Rattle.std.specs.List.{list_any};
ghost use Rattle.std.specs.Option.{option_copied};
ghost use Rattle.cdi_shape_check.specs.Application.{application_of};
ghost use Rattle.cdi_shape_check.specs.OwnFindings as own_findings;
ghost use Rattle.cdi_shape_check.specs.OwnParts as parts;
ghost use Rattle.cdi_shape_check.specs.OwnTables.{parts_in};
ghost use Rattle.cdi_body_check.specs.WrittenPoints as points;
ghost use Rattle.cdi_shape_check.specs.References as spec;
ghost use Rattle.cdi_shape_check.specs.Targets.{point_of};

use crate::own::OwnTables;
use cdi_base::{Name, Use, Via};
use cdi_beans::{Bean, BeanKind, BeanMember};
use cdi_bodies::{Lookup, MethodCall, Shape};
use cdi_deployment::{Class, InjectedField, Member, Point};
use cdi_live::DeploymentTables;
use cdi_resolve::Resolution;

/// The required type and qualifiers behind a reference.
#[derive(Clone, Copy)]
pub(crate) struct Target<'a> {
    ty: &'a Name,
    qualifiers: &'a [Use],
}

fn of_field(field: &InjectedField) -> Target<'_>
    ensures { point_of result ≡ points.point_of_field field.now }
{
    Target {
        ty: &field.ty,
        qualifiers: field.quals.as_slice(),
    }
}

fn of_param(point: &Point) -> Target<'_>
    ensures { point_of result ≡ point.now }
{
    Target {
        ty: &point.ty,
        qualifiers: point.quals.as_slice(),
    }
}

fn of_lookup(lookup: &Lookup) -> Target<'_>
    ensures { point_of result ≡ points.point_of_lookup lookup.now }
{
    Target {
        ty: &lookup.bean_type,
        qualifiers: lookup.qualifiers.as_slice(),
    }
}

/// A parameter, if there is one with the index.
fn param_at(params: &[Point], index: u32) -> Option<Target<'_>>
    ensures { option_map point_of result ≡ slice_get params.now index }
{
    params.get(index as usize).map(|point| of_param(point))
}

/// What stands behind a reference: an injected field of the own instance, a parameter, or a lookup of the body.
fn target_of<'a>(
    own: &OwnTables<'a>,
    params: &'a [Point],
    lookups: &'a [Lookup],
    via: &Via,
) -> Option<Target<'a>>
    ensures { option_map point_of result
        ≡ spec.point_at (parts_in own.now) params.now lookups.now via.now }
{
    match via {
        Via::Field(name) => own.injected(*name).map(|field| of_field(field)),
        Via::Param(index) => param_at(params, *index),
        Via::Local(index) => lookups.get(*index as usize).map(|lookup| of_lookup(lookup)),
    }
}

/// The one bean that a type and qualifiers resolve to.
fn bean_at<'a>(application: &DeploymentTables<'a>, target: &Target<'_>) -> Option<&'a Bean>
    ensures { option_copied result
        ≡ spec.bean_at (application_of application.now) (point_of target.now) }
{
    match application.resolve(*target.ty, target.qualifiers) {
        Resolution::One(index) => application.beans.resolver.bean(index),
        _ => None,
    }
}

/// Whether a member is a method with the name and the number of values of a call.
fn is_method(member: &Member, call: &MethodCall) -> bool
    ensures { result ≡ parts.is_method call.now.method call.now.count member.now }
{
    match member {
        Member::Method(method) => method.name == call.method && method.args as usize == call.count,
        _ => false,
    }
}

/// Whether a class declares such a method.
fn declares_method(class: &Class, call: &MethodCall) -> bool
    ensures { result ≡ parts.declares_method call.now.method call.now.count class.now }
{
    class.members.iter().any(|member| is_method(member, call))
}

/// The same of a class that may not be there.
fn declares_called(class: Option<&Class>, call: &MethodCall) -> bool
    ensures { result ≡ spec.declares_called call.now (option_copied class.entry) }
{
    match class {
        Some(class) => declares_method(class, call),
        None => false,
    }
}

/// Whether a member of a bean is the method that is called.
fn is_called(application: &DeploymentTables<'_>, member: &BeanMember, call: &MethodCall) -> bool
    ensures { result ≡ spec.is_called
        (application_of application.now).deployment.classes call.now member.now }
{
    member.name == call.method && declares_called(application.class(member.class), call)
}

/// Whether one of the members of a bean is the method that is called.
fn is_one_called(
    application: &DeploymentTables<'_>,
    members: &[BeanMember],
    call: &MethodCall,
) -> bool
    ensures { result ≡ list_any (spec.is_called
        (application_of application.now).deployment.classes call.now) members.now }
{
    members
        .iter()
        .any(|member| is_called(application, member, call))
}

/// Whether a bean has the method that is called. A product has none.
fn answers_call(application: &DeploymentTables<'_>, bean: &Bean, call: &MethodCall) -> bool
    ensures { result ≡ spec.answers_call
        (application_of application.now).deployment.classes call.now bean.now }
{
    bean.is_managed() && is_one_called(application, bean.members.as_slice(), call)
}

fn refuses_call(application: &DeploymentTables<'_>, bean: Option<&Bean>, call: &MethodCall) -> bool
    ensures { result ≡ spec.refuses_call
        (application_of application.now).deployment.classes call.now (option_copied bean.entry) }
{
    match bean {
        Some(bean) => !answers_call(application, bean, call),
        None => false,
    }
}

/// Whether a call goes through a reference that isn't there, or that leads to one bean without the method.
fn is_call_missing(
    application: &DeploymentTables<'_>,
    target: Option<Target<'_>>,
    call: &MethodCall,
) -> bool
    ensures { result ≡ spec.is_call_missing
        (application_of application.now) call.now (option_map point_of target.entry) }
{
    match target {
        Some(target) => refuses_call(application, bean_at(application, &target), call),
        None => true,
    }
}

fn holds_none(bean: Option<&Bean>) -> bool
    ensures { result ≡ spec.holds_none (option_copied bean.entry) }
{
    match bean {
        Some(bean) => bean.is_managed(),
        None => false,
    }
}

/// Whether a value is behind a reference that isn't there, or that leads to one managed bean.
fn is_cell_missing(application: &DeploymentTables<'_>, target: Option<Target<'_>>) -> bool
    ensures { result ≡ spec.is_cell_missing
        (application_of application.now) (option_map point_of target.entry) }
{
    match target {
        Some(target) => holds_none(bean_at(application, &target)),
        None => true,
    }
}

/// Whether a reference is a parameter.
fn is_param(via: &Via) -> bool
    ensures { result ≡ own_findings.is_param via.now }
{
    matches!(via, Via::Param(_))
}

/// Whether a call that goes through no parameter is missing.
fn is_own_call_missing(
    application: &DeploymentTables<'_>,
    own: &OwnTables<'_>,
    lookups: &[Lookup],
    call: &MethodCall,
) -> bool
    ensures { result ≡ own_findings.is_own_call_missing
        (application_of application.now) (parts_in own.now) lookups.now call.now }
{
    !is_param(&call.via)
        && is_call_missing(application, target_of(own, &[], lookups, &call.via), call)
}

/// Whether a value is missing that isn't behind a parameter.
fn is_own_cell_missing(
    application: &DeploymentTables<'_>,
    own: &OwnTables<'_>,
    lookups: &[Lookup],
    via: &Via,
) -> bool
    ensures { result ≡ own_findings.is_own_cell_missing
        (application_of application.now) (parts_in own.now) lookups.now via.now }
{
    !is_param(via) && is_cell_missing(application, target_of(own, &[], lookups, via))
}

/// Whether a call goes through a parameter, and is missing.
fn is_param_call_missing(
    application: &DeploymentTables<'_>,
    params: &[Point],
    call: &MethodCall,
) -> bool
    ensures { result ≡ own_findings.is_param_call_missing
        (application_of application.now) params.now call.now }
{
    match &call.via {
        Via::Param(index) => is_call_missing(application, param_at(params, *index), call),
        _ => false,
    }
}

/// Whether a value is behind a parameter, and is missing.
fn is_param_cell_missing(application: &DeploymentTables<'_>, params: &[Point], via: &Via) -> bool
    ensures { result ≡ own_findings.is_param_cell_missing
        (application_of application.now) params.now via.now }
{
    match via {
        Via::Param(index) => is_cell_missing(application, param_at(params, *index)),
        _ => false,
    }
}

/// Whether a shape has a call that is missing, among those that go through no parameter.
pub(crate) fn lacks_own_call(
    application: &DeploymentTables<'_>,
    own: &OwnTables<'_>,
    shape: &Shape,
) -> bool
    ensures { result ≡ own_findings.lacks_own_call
        (application_of application.now) (parts_in own.now) shape.now }
{
    let lookups = shape.lookups.as_slice();
    shape.calls.iter().any(|call| is_own_call_missing(application, own, lookups, call))
}

/// Whether a shape has a value that is missing, among those that aren't behind parameters.
pub(crate) fn lacks_own_cell(
    application: &DeploymentTables<'_>,
    own: &OwnTables<'_>,
    shape: &Shape,
) -> bool
    ensures { result ≡ own_findings.lacks_own_cell
        (application_of application.now) (parts_in own.now) shape.now }
{
    let lookups = shape.lookups.as_slice();
    shape
        .cells
        .iter()
        .any(|via| is_own_cell_missing(application, own, lookups, via))
}

/// Whether a shape has a call through a parameter that is missing.
fn lacks_param_call(application: &DeploymentTables<'_>, params: &[Point], shape: &Shape) -> bool
    ensures { result ≡ own_findings.lacks_param_call
        (application_of application.now) params.now shape.now }
{
    shape
        .calls
        .iter()
        .any(|call| is_param_call_missing(application, params, call))
}

/// Whether a shape has a value behind a parameter that is missing.
fn lacks_param_cell(application: &DeploymentTables<'_>, params: &[Point], shape: &Shape) -> bool
    ensures { result ≡ own_findings.lacks_param_cell
        (application_of application.now) params.now shape.now }
{
    shape
        .cells
        .iter()
        .any(|via| is_param_cell_missing(application, params, via))
}

/// Whether a body is registered whose shape has a call or a value that is missing, and that goes through a parameter.
pub(crate) fn misses_params(
    application: &DeploymentTables<'_>,
    params: &[Point],
    shape: Option<&Shape>,
) -> bool
    ensures { result ≡ own_findings.is_param_outside
        (application_of application.now) params.now (option_copied shape.entry) }
{
    match shape {
        Some(shape) => {
            lacks_param_call(application, params, shape)
                || lacks_param_cell(application, params, shape)
        }
        None => false,
    }
}
