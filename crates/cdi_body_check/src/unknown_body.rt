//! Bodies that aren't registered.
ghost use Rattle.std.specs.Prelude.{IfOk};
ghost use Rattle.cdi_bodies.specs.Table.{entries_of};
ghost use Rattle.cdi_body_check.specs.Findings.{ArePlacesOf};
ghost use Rattle.cdi_body_check.specs.Shapes.{shape_of};
ghost use Rattle.cdi_body_check.specs.Sites.{shown};
ghost use Rattle.cdi_body_check.specs.UnknownBody.{HasUnknownBody};

use crate::finding::{SiteRule, places_where};
use crate::site::BodySite;
use crate::tables::BodyTables;
use cdi_base::{Place, Seq};
use std::alloc::{AllocError, Global};

/// The body of a live site isn't registered.
#[derive(Clone, Copy)]
struct UnknownBody<'a> {
    tables: &'a BodyTables<'a>,
}

impl SiteRule for UnknownBody<'_> {
    ghost use Rattle.cdi_bodies.specs.Table as table;
    ghost use Rattle.cdi_body_check.specs.Shapes as shapes;
    ghost use Rattle.cdi_body_check.specs.UnknownBody as spec;

    ghost holds_at = { λ rule s. spec.HasUnknownBody rule.tables.now.application.now.live.now
        (shapes.shape_of (table.entries_of rule.tables.now.bodies.now)) s };

    fn holds(&self, site: &BodySite<'_>) -> bool {
        let tables = self.tables;
        site.is_live(tables.application.live) && tables.bodies.find(site.body()).is_none()
    }
}

/// Where the body of a live one of some sites isn't registered, in their order, each place once.
pub fn unknown_bodies(
    alloc: Global,
    tables: &BodyTables<'_>,
    sites: &[BodySite<'_>],
) -> Result<Seq<Place>, AllocError>
    ensures { IfOk result (ArePlacesOf (HasUnknownBody tables.now.application.now.live.now
        (shape_of (entries_of tables.now.bodies.now))) (shown sites.now)) }
{
    places_where(alloc, &UnknownBody { tables }, sites)
}
