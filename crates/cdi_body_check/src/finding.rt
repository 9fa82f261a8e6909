//! Where a problem of bodies holds.
ghost use Rattle.std.specs.Prelude.{◌≡◌, IfOk, OnOk};
ghost use Rattle.cdi_body_check.specs.Findings.{ArePlacesOf, AddsPlacesOf};
ghost use Rattle.cdi_body_check.specs.Sites.{shown};

use crate::site::BodySite;
use cdi_base::{Place, Seq};
use cdi_problems::once;
use std::alloc::{AllocError, Global};

/// A problem that sites of bodies can have, as a test.
pub trait SiteRule {
    ghost use Rattle.std.specs.Prelude.{◌↔◌, IsTrue};
    ghost use Rattle.cdi_body_check.specs.Sites.{Site as Shown, site_of};

    /// The sentence that says of a site that it has the problem.
    ghost holds_at: { Self → Shown → Type 0 };

    /// Whether a site has the problem.
    fn holds(&self, site: &BodySite<'_>) -> bool
        ensures { IsTrue result ↔ holds_at self.now (site_of site.now) };
}

/// Adds the places of the sites that have a problem, with repeats.
pub fn add_places<R: SiteRule>(
    rule: &R,
    sites: &[BodySite<'_>],
    found: &mut Seq<Place>,
) -> Result<(), AllocError>
    ensures { OnOk result
        (AddsPlacesOf (R.holds_at rule.now) (shown sites.now) found.old found.new) }
{
    for site in sites {
        if rule.holds(site) {
            found.push(site.place())?;
        }
    }
    Ok(())
}

/// The places of those sites that have a problem, in their order, each once.
pub fn places_where<R: SiteRule>(
    alloc: Global,
    rule: &R,
    sites: &[BodySite<'_>],
) -> Result<Seq<Place>, AllocError>
    ensures { IfOk result (ArePlacesOf (R.holds_at rule.now) (shown sites.now)) }
{
    let mut found = Seq::empty(alloc);
    add_places(rule, sites, &mut found)?;
    once(alloc, found.as_slice())
}
