//! Which registered body is that of a name.
ghost use Rattle.std.specs.Prelude.{◌≡◌, ◌==◌, ℕ, Some, None, nat_eq, IfOk, OnOk, if◌then◌else◌};
ghost use Rattle.std.specs.HashMap.{get};
ghost use Rattle.cdi_bodies.specs.Gives.{place_of};
ghost use Rattle.cdi_bodies.specs.Table.{entries_of};
ghost use Rattle.cdi_body_check.specs.Sites.{shown};
ghost use Rattle.cdi_event_tables.specs.Ids as spec;

use cdi_base::Name;
use cdi_bodies::{Bodies, BodyId};
use cdi_body_check::{BodySite, sites_of};
use cdi_deployment::Deployment;
use std::alloc::{AllocError, Global};
use std::collections::HashMap;

/// The registered bodies that a deployment names.
#[derive(Drop)]
pub struct BodyIds {
    ids: HashMap<Name, Option<BodyId>>,
}

/// Those that some members and methods of interceptors name.
fn ids_of(
    alloc: Global,
    sites: &[BodySite<'_>],
    bodies: &Bodies,
) -> Result<HashMap<Name, Option<BodyId>>, AllocError>
    ensures { IfOk result (λ ids. (name : ℕ) → get nat_eq ids name
        ≡ spec.told_of (place_of (entries_of bodies.now)) (shown sites.now) name) }
{
    let mut ids = HashMap::new(alloc);
    for site in sites {
        let name = site.body();
        ids.insert(name, bodies.find(name))?;
    }
    Ok(ids)
}

impl BodyIds {
    /// Those that a deployment names.
    pub fn build(
        alloc: Global,
        deployment: &Deployment,
        bodies: &Bodies,
    ) -> Result<BodyIds, AllocError>
        ensures { IfOk result (spec.AreIdsIn (entries_of bodies.now) deployment.now) }
    {
        let sites = sites_of(alloc, deployment)?;
        let ids = ids_of(alloc, sites.as_slice(), bodies)?;
        Ok(BodyIds { ids })
    }

    /// The body of a name, if the deployment names it and it is registered.
    pub fn id(&self, name: Name) -> Option<BodyId>
        ensures { result ≡ spec.id_in self.now name }
    {
        match self.ids.get(&name) {
            Some(id) => *id,
            None => None,
        }
    }
}
