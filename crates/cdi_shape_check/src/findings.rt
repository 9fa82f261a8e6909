//! What is missing to the bodies of a class or of an interceptor.
ghost use Rattle.std.specs.Prelude.{◌≡◌, IfOk, OnOk};
ghost use Rattle.std.specs.Option.{option_copied};
ghost use Rattle.cdi_bodies.specs.Table.{entries_of};
ghost use Rattle.cdi_body_check.specs.Shapes.{shape_of};
ghost use Rattle.cdi_shape_check.specs.Application.{application_of};
ghost use Rattle.cdi_shape_check.specs.BodyOutsideShape as outside;
ghost use Rattle.cdi_shape_check.specs.OwnFindings as spec;
ghost use Rattle.cdi_shape_check.specs.OwnTables.{parts_in};

use crate::events::{lacks_event, lacks_exception};
use crate::lookups::lacks_lookup;
use crate::own::OwnTables;
use crate::references::{lacks_own_call, lacks_own_cell};
use cdi_base::Name;
use cdi_bodies::Shape;
use cdi_body_check::{BodySite, BodyTables, shapes};
use std::alloc::{AllocError, Global};
use std::collections::HashMap;

/// Whether a shape sets a field that the own instance lacks.
fn lacks_field(own: &OwnTables<'_>, shape: &Shape) -> bool
    ensures { result ≡ outside.lacks_field (parts_in own.now) shape.now }
{
    shape.sets.iter().any(|name| !own.has_field(*name))
}

/// Whether a shape calls a method on the own instance that it lacks, or that has another number of values.
fn lacks_method(own: &OwnTables<'_>, shape: &Shape) -> bool
    ensures { result ≡ outside.lacks_method (parts_in own.now) shape.now }
{
    shape
        .owns
        .iter()
        .any(|call| !own.has_method(call.method, call.count))
}

/// Whether a shape has an event, a lookup or an exception with an unknown name.
fn names_unknown(tables: &BodyTables<'_>, shape: &Shape) -> bool
    ensures { result ≡ outside.names_unknown
        (application_of tables.now.application.now).deployment shape.now }
{
    let application = tables.application;
    lacks_event(application, shape)
        || lacks_lookup(application, shape)
        || lacks_exception(tables.exceptions, shape)
}

/// Whether a shape has a local to destroy that no lookup of its gives.
fn lacks_local(shape: &Shape) -> bool
    ensures { result ≡ outside.lacks_local shape.now }
{
    let count = shape.lookups.len();
    shape.destroys.iter().any(|local| *local as usize >= count)
}

/// Whether a shape names something that isn't there, and that doesn't go through parameters.
fn names_missing(tables: &BodyTables<'_>, own: &OwnTables<'_>, shape: &Shape) -> bool
    ensures { result ≡ spec.names_own_missing
        (application_of tables.now.application.now) (parts_in own.now) shape.now }
{
    let application = tables.application;
    lacks_field(own, shape)
        || lacks_method(own, shape)
        || lacks_own_call(application, own, shape)
        || lacks_own_cell(application, own, shape)
        || names_unknown(tables, shape)
        || lacks_local(shape)
}

/// Whether a body is registered whose shape names something that isn't there, and that doesn't go through parameters.
pub(crate) fn is_outside(
    tables: &BodyTables<'_>,
    own: &OwnTables<'_>,
    shape: Option<&Shape>,
) -> bool
    ensures { result ≡ spec.is_own_outside (application_of tables.now.application.now)
        (parts_in own.now) (option_copied shape.entry) }
{
    match shape {
        Some(shape) => names_missing(tables, own, shape),
        None => false,
    }
}

/// Adds what is found of the body of a site, if the site is live and nothing is told of the body.
fn add_finding(
    tables: &BodyTables<'_>,
    own: &OwnTables<'_>,
    site: &BodySite<'_>,
    findings: &mut HashMap<Name, bool>,
) -> Result<(), AllocError>
    ensures { OnOk result (spec.KeepsFindings (application_of tables.now.application.now)
        (parts_in own.now) (shape_of (entries_of tables.now.bodies.now))
        findings.old findings.new) }
{
    let body = site.body();
    if !site.is_live(tables.application.live) || findings.contains_key(&body) {
        return Ok(());
    }
    let told = is_outside(tables, own, shapes::shape_of(tables.bodies, body));
    findings.insert(body, told)?;
    Ok(())
}

/// Which of the bodies of some live sites have shapes that name something that isn't there, and that doesn't go through parameters. A
/// body that many members have is looked at once.
pub(crate) fn findings_of(
    alloc: Global,
    tables: &BodyTables<'_>,
    own: &OwnTables<'_>,
    sites: &[BodySite<'_>],
) -> Result<HashMap<Name, bool>, AllocError>
    ensures { IfOk result (spec.AreFindings (application_of tables.now.application.now)
        (parts_in own.now) (shape_of (entries_of tables.now.bodies.now))) }
{
    let mut findings = HashMap::new(alloc);
    for site in sites {
        add_finding(tables, own, site, &mut findings)?;
    }
    Ok(findings)
}
