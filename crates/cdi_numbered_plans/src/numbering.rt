//! What plans are numbered by.
ghost use Rattle.std.specs.Prelude.{◌≡◌, ◌&&◌, ℕ, not, is_some, nat_eq, IfOk};
ghost use Rattle.std.specs.HashMap.{get};
ghost use Rattle.cdi_beans.specs.Kinds.{is_managed};
ghost use Rattle.cdi_event_tables.specs.Observers as observers;

use cdi_base::{Name, Names};
use cdi_beans::Bean;
use cdi_event_tables::BodyIds;
use cdi_quals::QualifierTypes;
use cdi_resolve::Resolver;
use std::alloc::{AllocError, Global};
use std::collections::HashMap;

/// What the plans of a deployment are numbered by: the numbers of its bodies, its names with the types of its qualifiers, and its beans.
#[derive(Drop)]
pub struct Numbering<'a> {
    pub(crate) ids: &'a BodyIds,
    pub(crate) names: &'a Names,
    pub(crate) qualifiers: &'a QualifierTypes,
    pub(crate) resolver: &'a Resolver,
    /// The managed bean of each class, by its index.
    managed: HashMap<Name, usize>,
    ghost indexed: { (class : ℕ) → get nat_eq managed class
        ≡ observers.managed_bean resolver.now.beans class },
}

/// Whether a bean is a managed one, the first of its class.
fn takes_place(managed: &HashMap<Name, usize>, bean: &Bean) -> bool
    ensures { result ≡ is_managed bean.now.kind
        && not (is_some (get nat_eq managed.now bean.now.class)) }
{
    bean.is_managed() && !managed.contains_key(&bean.class)
}

/// The managed bean of each class, by its index.
fn managed_beans(alloc: Global, beans: &[Bean]) -> Result<HashMap<Name, usize>, AllocError>
    ensures { IfOk result (λ managed. (class : ℕ)
        → get nat_eq managed class ≡ observers.managed_bean beans.now class) }
{
    let mut managed = HashMap::new(alloc);
    for (place, bean) in beans.iter().enumerate() {
        if takes_place(&managed, bean) {
            managed.insert(bean.class, place)?;
        }
    }
    Ok(managed)
}

impl<'a> Numbering<'a> {
    /// That of a deployment, by the numbers of its bodies, its names with the types of its qualifiers, and its beans.
    pub fn build(
        alloc: Global,
        ids: &'a BodyIds,
        names: &'a Names,
        qualifiers: &'a QualifierTypes,
        resolver: &'a Resolver,
    ) -> Result<Numbering<'a>, AllocError>
        ensures ids { IfOk result (λ built. built.ids.now ≡ ids.now) }
        ensures names { IfOk result (λ built. built.names.now ≡ names.now) }
        ensures qualifiers { IfOk result (λ built. built.qualifiers.now ≡ qualifiers.now) }
        ensures resolver { IfOk result (λ built. built.resolver.now ≡ resolver.now) }
    {
        let managed = managed_beans(alloc, resolver.beans())?;
        Ok(Numbering {
            ids,
            names,
            qualifiers,
            resolver,
            managed,
        })
    }

    /// The numbers of the bodies.
    pub fn ids(&self) -> &'a BodyIds
        ensures { result.now ≡ self.now.ids.now }
    {
        self.ids
    }

    /// The managed bean of a class, by its index.
    pub(crate) fn managed_bean(&self, class: Name) -> Option<usize>
        ensures { result ≡ observers.managed_bean self.now.resolver.now.beans class }
    {
        self.managed.get(&class).copied()
    }
}
