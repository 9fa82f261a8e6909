//! Bodies that go on with an interceptor chain where there is none.
ghost use Rattle.std.specs.Prelude.{◌≡◌, IfOk};
ghost use Rattle.std.specs.Option.{option_copied};
ghost use Rattle.cdi_bodies.specs.Table.{entries_of};
ghost use Rattle.cdi_body_check.specs.Findings.{ArePlacesOf};
ghost use Rattle.cdi_body_check.specs.ProceedNotAllowed.{HasProceedNotAllowed, may_proceed as may_proceed_by};
ghost use Rattle.cdi_body_check.specs.Shapes.{shape_of};
ghost use Rattle.cdi_body_check.specs.Sites.{shown};

use crate::finding::{SiteRule, places_where};
use crate::shapes;
use crate::site::BodySite;
use crate::tables::BodyTables;
use cdi_base::{Place, Seq};
use cdi_bodies::Shape;
use std::alloc::{AllocError, Global};

/// The body of a live site that isn't an interceptor's method may go on with a chain.
#[derive(Clone, Copy)]
struct ProceedNotAllowed<'a> {
    tables: &'a BodyTables<'a>,
}

/// Whether a body is registered that may go on with a chain.
fn may_proceed(shape: Option<&Shape>) -> bool
    ensures { result ≡ may_proceed_by (option_copied shape.entry) }
{
    match shape {
        Some(shape) => shape.chain,
        None => false,
    }
}

impl SiteRule for ProceedNotAllowed<'_> {
    ghost use Rattle.cdi_bodies.specs.Table as table;
    ghost use Rattle.cdi_body_check.specs.ProceedNotAllowed as spec;
    ghost use Rattle.cdi_body_check.specs.Shapes as shapes;

    ghost holds_at = { λ rule s. spec.HasProceedNotAllowed rule.tables.now.application.now.live.now
        (shapes.shape_of (table.entries_of rule.tables.now.bodies.now)) s };

    fn holds(&self, site: &BodySite<'_>) -> bool {
        let tables = self.tables;
        site.is_live(tables.application.live)
            && !site.is_interceptor_method()
            && may_proceed(shapes::shape_of(tables.bodies, site.body()))
    }
}

/// Where the body of a live one of some sites that isn't an interceptor's method may go on with a chain, in their order, each place once
/// (Jakarta Interceptors 2.1, *InvocationContext*).
pub fn proceeds_not_allowed(
    alloc: Global,
    tables: &BodyTables<'_>,
    sites: &[BodySite<'_>],
) -> Result<Seq<Place>, AllocError>
    ensures { IfOk result (ArePlacesOf (HasProceedNotAllowed tables.now.application.now.live.now
        (shape_of (entries_of tables.now.bodies.now))) (shown sites.now)) }
{
    places_where(alloc, &ProceedNotAllowed { tables }, sites)
}
