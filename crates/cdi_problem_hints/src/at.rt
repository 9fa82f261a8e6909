//! What stands at the place of a problem.
ghost use Rattle.std.specs.Prelude.{◌≡◌, filter};
ghost use Rattle.cdi_body_check.specs.Sites as sites;
ghost use Rattle.cdi_problem_hints.specs.Asked.{is_at};
ghost use Rattle.cdi_problem_hints.specs.Scripts.{is_at as is_site_at};
ghost use Rattle.cdi_problems.specs.Elements as elements;

use crate::subject::Subject;
use cdi_base::Place;
use cdi_body_check::BodySite;
use cdi_problems::Element;

/// The elements at a place, in their order.
pub(crate) fn elements_at<'a>(subject: &Subject<'a>, place: &Option<Place>) -> &'a [Element<'a>]
    ensures { elements.shown result.now
        ≡ filter (is_at place.now) (elements.elements_of subject.now.deployment.now) }
{
    match place {
        Some(place) => subject.index.elements_at(place),
        None => &[],
    }
}

/// What has a body at a place, in the order of places.
pub(crate) fn sites_at<'a>(subject: &Subject<'a>, place: &Option<Place>) -> &'a [BodySite<'a>]
    ensures { sites.shown result.now
        ≡ filter (is_site_at place.now) (sites.sites_of subject.now.deployment.now) }
{
    match place {
        Some(place) => subject.index.sites_at(place),
        None => &[],
    }
}
