//! What bodies ask for of the instance that they run on.
ghost use Rattle.std.specs.Prelude.{◌≡◌};
ghost use Rattle.std.specs.List.{list_any};
ghost use Rattle.std.specs.Option.{option_copied};
ghost use Rattle.cdi_bodies.specs.Table.{entries_of};
ghost use Rattle.cdi_body_check.specs.Shapes.{shape_of};
ghost use Rattle.cdi_body_check.specs.Sites.{site_of, shown};
ghost use Rattle.cdi_shape_check.specs.AskedParts as spec;

use cdi_base::Via;
use cdi_bodies::Shape;
use cdi_body_check::{BodySite, BodyTables, shapes};

/// A part of what an instance has.
#[derive(Clone, Copy)]
enum OwnPart {
    Fields,
    Injected,
    Methods,
}

/// Which parts of their own instance some bodies ask for. A class with many superclasses declares much, so only what is asked for is
/// gathered.
#[derive(Clone, Copy)]
pub(crate) struct AskedParts {
    pub(crate) fields: bool,
    pub(crate) injected: bool,
    pub(crate) methods: bool,
}

/// Whether a shape sets a field.
#[tactic(auto, using(crate::proofs::Asking::is_item_there))]
fn sets_field(shape: &Shape) -> bool
    ensures { result ≡ spec.has_item shape.now.sets }
{
    !shape.sets.is_empty()
}

/// Whether a shape calls a method on the own instance.
#[tactic(auto, using(crate::proofs::Asking::is_item_there))]
fn calls_method(shape: &Shape) -> bool
    ensures { result ≡ spec.has_item shape.now.owns }
{
    !shape.owns.is_empty()
}

/// Whether a reference is an injected field.
fn is_field(via: &Via) -> bool
    ensures { result ≡ spec.is_field via.now }
{
    matches!(via, Via::Field(_))
}

/// Whether a shape has a call behind an injected field.
fn calls_injected(shape: &Shape) -> bool
    ensures { result ≡ list_any (λ call. spec.is_field call.via) shape.now.calls }
{
    shape.calls.iter().any(|call| is_field(&call.via))
}

/// Whether a shape has a value behind an injected field.
fn holds_injected(shape: &Shape) -> bool
    ensures { result ≡ list_any spec.is_field shape.now.cells }
{
    shape.cells.iter().any(|via| is_field(via))
}

/// Whether a shape asks for a part.
fn asks(part: OwnPart, shape: &Shape) -> bool
    ensures { result ≡ spec.asks part shape.now }
{
    match part {
        OwnPart::Fields => sets_field(shape),
        OwnPart::Injected => calls_injected(shape) || holds_injected(shape),
        OwnPart::Methods => calls_method(shape),
    }
}

/// The shape of a site's body, if the site is live and the body is registered.
fn live_shape<'a>(tables: &BodyTables<'a>, site: &BodySite<'_>) -> Option<&'a Shape>
    ensures { option_copied result ≡ spec.live_shape tables.now.application.now.live.now
        (shape_of (entries_of tables.now.bodies.now)) (site_of site.now) }
{
    if site.is_live(tables.application.live) {
        shapes::shape_of(tables.bodies, site.body())
    } else {
        None
    }
}

/// Whether the body of a site asks for a part, if the site is live.
fn site_asks(tables: &BodyTables<'_>, part: OwnPart, site: &BodySite<'_>) -> bool
    ensures { result ≡ spec.site_asks part tables.now.application.now.live.now
        (shape_of (entries_of tables.now.bodies.now)) (site_of site.now) }
{
    live_shape(tables, site).is_some_and(|shape| asks(part, shape))
}

/// Whether the body of some live site asks for a part.
fn some_asks(tables: &BodyTables<'_>, part: OwnPart, sites: &[BodySite<'_>]) -> bool
    ensures { result ≡ list_any (λ s. spec.site_asks part tables.now.application.now.live.now
        (shape_of (entries_of tables.now.bodies.now)) (site_of s)) sites.now }
{
    for site in sites {
        if site_asks(tables, part, site) {
            return true;
        }
    }
    false
}

impl AskedParts {
    /// What the bodies of the live ones among some sites ask for.
    pub(crate) fn of_sites(tables: &BodyTables<'_>, sites: &[BodySite<'_>]) -> AskedParts
        ensures { result ≡ spec.asked_by tables.now.application.now.live.now
            (shape_of (entries_of tables.now.bodies.now)) (shown sites.now) }
    {
        AskedParts {
            fields: some_asks(tables, OwnPart::Fields, sites),
            injected: some_asks(tables, OwnPart::Injected, sites),
            methods: some_asks(tables, OwnPart::Methods, sites),
        }
    }
}
