//! Bodies whose shapes name something that isn't there.
ghost use Rattle.std.specs.Prelude.{◌≡◌, IfOk, OnOk};
ghost use Rattle.std.specs.List.{flat_map};
ghost use Rattle.cdi_bodies.specs.Table.{entries_of};
ghost use Rattle.cdi_body_check.specs.Findings.{ArePlacesOf, AddsPlacesOf};
ghost use Rattle.cdi_body_check.specs.Shapes.{shape_of};
ghost use Rattle.cdi_body_check.specs.Sites.{site_of, body_of, params_of, class_sites, interceptor_sites, sites_of};
ghost use Rattle.cdi_shape_check.specs.Application.{application_of};
ghost use Rattle.cdi_shape_check.specs.BodyOutsideShape as spec;
ghost use Rattle.cdi_shape_check.specs.OwnFindings as own_findings;
ghost use Rattle.cdi_shape_check.specs.OwnTables.{parts_in};

use crate::asked::AskedParts;
use crate::findings::{findings_of, is_outside};
use crate::own::OwnTables;
use crate::references::misses_params;
use cdi_base::{Name, Place, Seq};
use cdi_body_check::{
    BodySite, BodyTables, SiteRule, add_class_sites, add_interceptor_sites, add_places, shapes,
};
use cdi_deployment::{Class, Interceptor};
use cdi_problems::once;
use std::alloc::{AllocError, Global};
use std::collections::HashMap;

/// The shape of a live site's body names something that isn't there.
#[derive(Clone, Copy)]
struct OutsideShape<'a> {
    tables: &'a BodyTables<'a>,
    /// What the instance has that the body runs on.
    own: &'a OwnTables<'a>,
    /// What is told of bodies, so that one that many members have is looked at once.
    findings: &'a HashMap<Name, bool>,
    ghost findings_are: { own_findings.AreFindings (application_of tables.now.application.now)
        (parts_in own.now) (shape_of (entries_of tables.now.bodies.now)) findings.now },
}

impl OutsideShape<'_> {
    /// Whether the shape of a body names something that isn't there, and that doesn't go through parameters.
    fn is_found(&self, body: Name) -> bool
        ensures { result ≡ own_findings.is_own_outside
            (application_of self.now.tables.now.application.now) (parts_in self.now.own.now)
            (shape_of (entries_of self.now.tables.now.bodies.now) body) }
    {
        match self.findings.get(&body) {
            Some(told) => *told,
            None => {
                let tables = self.tables;
                is_outside(tables, self.own, shapes::shape_of(tables.bodies, body))
            }
        }
    }

    /// Whether the shape of a site's body names something that isn't there.
    #[tactic(auto, using(crate::proofs::Split::outside_in_two))]
    fn is_outside(&self, site: &BodySite<'_>) -> bool
        ensures { result ≡ spec.is_outside (application_of self.now.tables.now.application.now)
            (parts_in self.now.own.now) (params_of (site_of site.now))
            (shape_of (entries_of self.now.tables.now.bodies.now) (body_of (site_of site.now))) }
    {
        let tables = self.tables;
        let body = site.body();
        self.is_found(body)
            || misses_params(
                tables.application,
                site.params(),
                shapes::shape_of(tables.bodies, body),
            )
    }
}

impl SiteRule for OutsideShape<'_> {
    ghost use Rattle.std.specs.Prelude.{IsTrue};
    ghost use Rattle.cdi_bodies.specs.Table as table;
    ghost use Rattle.cdi_body_check.specs.Shapes as registered;
    ghost use Rattle.cdi_shape_check.specs.Application as application;
    ghost use Rattle.cdi_shape_check.specs.BodyOutsideShape.{is_outside_with};
    ghost use Rattle.cdi_shape_check.specs.OwnTables as own;

    ghost holds_at = { λ rule s. IsTrue (is_outside_with
        (application.application_of rule.tables.now.application.now)
        rule.tables.now.application.now.live.now
        (registered.shape_of (table.entries_of rule.tables.now.bodies.now))
        (own.parts_in rule.own.now) s) };

    fn holds(&self, site: &BodySite<'_>) -> bool {
        site.is_live(self.tables.application.live) && self.is_outside(site)
    }
}

/// Adds the places in a class.
fn add_of_class(
    alloc: Global,
    tables: &BodyTables<'_>,
    class: &Class,
    found: &mut Seq<Place>,
) -> Result<(), AllocError>
    ensures { OnOk result (AddsPlacesOf (spec.HasBodyOutsideShape
        (application_of tables.now.application.now) tables.now.application.now.live.now
        (shape_of (entries_of tables.now.bodies.now))) (class_sites class.now)
        found.old found.new) }
{
    let mut sites = Vec::new(alloc);
    add_class_sites(class, &mut sites)?;
    if sites.is_empty() {
        return Ok(());
    }
    let sites = sites.as_slice();
    let asked = AskedParts::of_sites(tables, sites);
    let own = OwnTables::of_class(alloc, tables.application, class, asked)?;
    let findings = findings_of(alloc, tables, &own, sites)?;
    let rule = OutsideShape {
        tables,
        own: &own,
        findings: &findings,
    };
    add_places(&rule, sites, found)
}

/// Adds the places in an interceptor.
fn add_of_interceptor(
    alloc: Global,
    tables: &BodyTables<'_>,
    interceptor: &Interceptor,
    found: &mut Seq<Place>,
) -> Result<(), AllocError>
    ensures { OnOk result (AddsPlacesOf (spec.HasBodyOutsideShape
        (application_of tables.now.application.now) tables.now.application.now.live.now
        (shape_of (entries_of tables.now.bodies.now))) (interceptor_sites interceptor.now)
        found.old found.new) }
{
    let own = OwnTables::of_interceptor(alloc, interceptor)?;
    let mut sites = Vec::new(alloc);
    add_interceptor_sites(interceptor, &mut sites)?;
    let findings = findings_of(alloc, tables, &own, sites.as_slice())?;
    let rule = OutsideShape {
        tables,
        own: &own,
        findings: &findings,
    };
    add_places(&rule, sites.as_slice(), found)
}

fn add_of_classes(
    alloc: Global,
    tables: &BodyTables<'_>,
    classes: &[Class],
    found: &mut Seq<Place>,
) -> Result<(), AllocError>
    ensures { OnOk result (AddsPlacesOf (spec.HasBodyOutsideShape
        (application_of tables.now.application.now) tables.now.application.now.live.now
        (shape_of (entries_of tables.now.bodies.now))) (flat_map class_sites classes.now)
        found.old found.new) }
{
    for class in classes {
        add_of_class(alloc, tables, class, found)?;
    }
    Ok(())
}

fn add_of_interceptors(
    alloc: Global,
    tables: &BodyTables<'_>,
    interceptors: &[Interceptor],
    found: &mut Seq<Place>,
) -> Result<(), AllocError>
    ensures { OnOk result (AddsPlacesOf (spec.HasBodyOutsideShape
        (application_of tables.now.application.now) tables.now.application.now.live.now
        (shape_of (entries_of tables.now.bodies.now))) (flat_map interceptor_sites interceptors.now)
        found.old found.new) }
{
    for interceptor in interceptors {
        add_of_interceptor(alloc, tables, interceptor, found)?;
    }
    Ok(())
}

/// Where the shape of a live site's body names something that isn't there, in the order of places, each place once: a field to set, or
/// a method to call on the own instance, that the class that declares the body and its superclasses lack; a reference that isn't
/// there; a call that the one bean behind its reference has no method for, or a value that it doesn't hold; an event, a lookup or an
/// exception with an unknown name. What doesn't resolve to one bean isn't looked at further. It goes over each class that has
/// bodies, and over the fields, the injected fields or the methods of the class and all its superclasses if a live body asks for them.
pub fn bodies_outside_shape(
    alloc: Global,
    tables: &BodyTables<'_>,
) -> Result<Seq<Place>, AllocError>
    ensures { IfOk result (ArePlacesOf (spec.HasBodyOutsideShape
        (application_of tables.now.application.now) tables.now.application.now.live.now
        (shape_of (entries_of tables.now.bodies.now)))
        (sites_of (application_of tables.now.application.now).deployment)) }
{
    let deployment = tables.application.deployment;
    let mut found = Seq::empty(alloc);
    add_of_classes(alloc, tables, deployment.classes.as_slice(), &mut found)?;
    add_of_interceptors(
        alloc,
        tables,
        deployment.interceptors.as_slice(),
        &mut found,
    )?;
    once(alloc, found.as_slice())
}
