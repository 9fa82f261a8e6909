//! Lifecycle callbacks that throw checked exceptions.
ghost use Rattle.std.specs.Prelude.{◌≡◌, IfOk};
ghost use Rattle.std.specs.List.{list_any};
ghost use Rattle.std.specs.Option.{option_copied};
ghost use Rattle.cdi_bodies.specs.Table.{entries_of};
ghost use Rattle.cdi_body_check.specs.CheckedLifecycle.{HasCheckedLifecycle, throws_checked as throws_checked_of};
ghost use Rattle.cdi_body_check.specs.Exceptions.{is_checked};
ghost use Rattle.cdi_body_check.specs.Findings.{ArePlacesOf};
ghost use Rattle.cdi_body_check.specs.Shapes.{shape_of};
ghost use Rattle.cdi_body_check.specs.Sites.{shown};

use crate::exceptions::DeclaredExceptions;
use crate::finding::{SiteRule, places_where};
use crate::shapes;
use crate::site::BodySite;
use crate::tables::BodyTables;
use cdi_base::{Name, Place, Seq};
use cdi_bodies::Shape;
use std::alloc::{AllocError, Global};

/// The body of a live lifecycle callback throws a checked exception.
#[derive(Clone, Copy)]
struct CheckedLifecycle<'a> {
    tables: &'a BodyTables<'a>,
}

/// Whether one of some exceptions is declared checked.
fn is_one_checked(exceptions: &DeclaredExceptions<'_>, names: &[Name]) -> bool
    ensures { result ≡ list_any (is_checked exceptions.now) names.now }
{
    names.iter().any(|name| exceptions.is_checked(*name))
}

/// Whether a body is registered that may throw a checked exception of its own accord.
fn throws_checked(exceptions: &DeclaredExceptions<'_>, shape: Option<&Shape>) -> bool
    ensures { result ≡ throws_checked_of exceptions.now (option_copied shape.entry) }
{
    match shape {
        Some(shape) => is_one_checked(exceptions, shape.throws.as_slice()),
        None => false,
    }
}

impl SiteRule for CheckedLifecycle<'_> {
    ghost use Rattle.cdi_bodies.specs.Table as table;
    ghost use Rattle.cdi_body_check.specs.CheckedLifecycle as spec;
    ghost use Rattle.cdi_body_check.specs.Shapes as shapes;

    ghost holds_at = { λ rule s. spec.HasCheckedLifecycle
        rule.tables.now.application.now.deployment.now.exceptions
        rule.tables.now.application.now.live.now
        (shapes.shape_of (table.entries_of rule.tables.now.bodies.now)) s };

    fn holds(&self, site: &BodySite<'_>) -> bool {
        let tables = self.tables;
        site.is_live(tables.application.live)
            && site.is_callback()
            && throws_checked(
                tables.exceptions,
                shapes::shape_of(tables.bodies, site.body()),
            )
    }
}

/// Where the body of a live post-construct or pre-destroy callback, of a class or of an interceptor, throws a checked exception, among
/// some sites, in their order, each place once (Jakarta Interceptors 2.1, *Interceptor Methods for Lifecycle Event Callbacks*).
pub fn checked_lifecycles(
    alloc: Global,
    tables: &BodyTables<'_>,
    sites: &[BodySite<'_>],
) -> Result<Seq<Place>, AllocError>
    ensures { IfOk result (ArePlacesOf
        (HasCheckedLifecycle tables.now.application.now.deployment.now.exceptions
        tables.now.application.now.live.now (shape_of (entries_of tables.now.bodies.now)))
        (shown sites.now)) }
{
    places_where(alloc, &CheckedLifecycle { tables }, sites)
}
