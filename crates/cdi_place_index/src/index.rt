//! The elements and the body sites of a deployment by their places.
ghost use Rattle.std.specs.Prelude.{◌≡◌, IfOk};
ghost use Rattle.cdi_body_check.specs.Sites.{shown as shown_sites};
ghost use Rattle.cdi_place_index.specs.PlaceIndex as spec;
ghost use Rattle.cdi_place_index.specs.Sets.{sets};
ghost use Rattle.cdi_problems.specs.Elements.{shown as shown_elements};

use crate::rows::PlaceRows;
use cdi_base::Place;
use cdi_body_check::{BodySite, sites_of};
use cdi_deployment::Deployment;
use cdi_problems::{Element, elements_of};
use std::alloc::{AllocError, Global};

/// Some elements by their places.
fn element_rows<'a>(
    alloc: Global,
    elements: &[Element<'a>],
) -> Result<PlaceRows<Element<'a>>, AllocError>
    ensures { IfOk result (spec.AreElementRows (shown_elements elements.now)) }
{
    let mut rows = PlaceRows::empty(alloc);
    for element in elements {
        rows.add(alloc, &element.place(), *element)?;
    }
    Ok(rows)
}

/// Some body sites by their places.
fn site_rows<'a>(
    alloc: Global,
    sites: &[BodySite<'a>],
) -> Result<PlaceRows<BodySite<'a>>, AllocError>
    ensures { IfOk result (spec.AreSiteRows (shown_sites sites.now)) }
{
    let mut rows = PlaceRows::empty(alloc);
    for site in sites {
        rows.add(alloc, &site.place(), *site)?;
    }
    Ok(rows)
}

/// The elements of a deployment, and what of it has a body, each by its place.
#[derive(Drop)]
pub struct PlaceIndex<'a> {
    pub deployment: &'a Deployment,
    elements: PlaceRows<Element<'a>>,
    sites: PlaceRows<BodySite<'a>>,
    ghost are_elements: { spec.AreElementsOf deployment.now elements } by { Prim.hlevel sets },
    ghost are_sites: { spec.AreSitesOf deployment.now sites } by { Prim.hlevel sets },
}

impl<'a> PlaceIndex<'a> {
    /// The index of a deployment. It takes one pass over the elements and one over what has a body. The one error is [`AllocError`],
    /// if a growth was refused.
    pub fn of(alloc: Global, deployment: &'a Deployment) -> Result<PlaceIndex<'a>, AllocError>
        ensures { IfOk result (λ index. index.deployment.now ≡ deployment.now) }
    {
        let elements = elements_of(alloc, deployment)?;
        let elements = element_rows(alloc, elements.as_slice())?;
        let sites = sites_of(alloc, deployment)?;
        let sites = site_rows(alloc, sites.as_slice())?;
        Ok(PlaceIndex {
            deployment,
            elements,
            sites,
        })
    }

    /// The elements at a place, in their order.
    pub fn elements_at(&self, place: &Place) -> &[Element<'a>]
        ensures { shown_elements result.now ≡ spec.elements_at self.now.deployment.now place.now }
    {
        self.elements.at(place)
    }

    /// What has a body at a place, in the order of places.
    pub fn sites_at(&self, place: &Place) -> &[BodySite<'a>]
        ensures { shown_sites result.now ≡ spec.sites_at self.now.deployment.now place.now }
    {
        self.sites.at(place)
    }
}
