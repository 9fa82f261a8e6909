//! The observers of enabled beans with what runs where they are notified.
ghost use Rattle.std.specs.Prelude.{◌≡◌, ◌&&◌, ℕ, nat_eq, not, is_some, IfOk, IsSome};
ghost use Rattle.std.specs.HashMap.{get};
ghost use Rattle.cdi_beans.specs.Kinds.{is_managed};
ghost use Rattle.cdi_planner.specs.Observers.{observer_of};
ghost use Rattle.cdi_event_tables.specs.Ids.{id_in};
ghost use Rattle.cdi_event_tables.specs.Observers as spec;
ghost use Rattle.cdi_resolve.specs.Filters as enabled;

use crate::ids::BodyIds;
use cdi_base::Name;
use cdi_beans::{Bean, ObserverMethod};
use cdi_bodies::BodyId;
use cdi_planner::Planner;
use cdi_plans::InjectedMethod;
use cdi_quals::QualSet;
use cdi_resolve::Resolver;
use std::alloc::{AllocError, Global};
use std::collections::HashMap;

/// An observer of an enabled managed bean, as an event notifies it (Jakarta CDI 4.0, *Observer methods*).
#[derive(Drop)]
pub struct PlannedObserver {
    /// The observed event type.
    pub ty: Name,
    /// The observed event qualifiers.
    pub qualifiers: QualSet,
    /// The index of its bean in the bean list.
    pub bean: usize,
    /// What runs where it is notified.
    pub member: InjectedMethod,
    /// The body of that, if it is registered.
    pub body: Option<BodyId>,
    /// Whether it is notified only where its bean has an instance (Jakarta CDI 4.0, *Conditional observer methods*).
    pub conditional: bool,
}

/// Whether a bean is a managed one, the first of its class.
fn takes_place(places: &HashMap<Name, usize>, bean: &Bean) -> bool
    ensures { result ≡ is_managed bean.now.kind
        && not (is_some (get nat_eq places.now bean.now.class)) }
{
    bean.is_managed() && !places.contains_key(&bean.class)
}

/// The managed bean of each class, by its index.
fn managed_beans(alloc: Global, beans: &[Bean]) -> Result<HashMap<Name, usize>, AllocError>
    ensures { IfOk result (λ places. (class : ℕ)
        → get nat_eq places class ≡ spec.managed_bean beans.now class) }
{
    let mut places = HashMap::new(alloc);
    for (place, bean) in beans.iter().enumerate() {
        if takes_place(&places, bean) {
            places.insert(bean.class, place)?;
        }
    }
    Ok(places)
}

/// Whether the bean with an index is enabled.
fn is_enabled(flags: &[bool], bean: usize) -> bool
    ensures { result ≡ enabled.is_enabled flags.now bean }
{
    match flags.get(bean) {
        Some(flag) => *flag,
        None => false,
    }
}

/// The body of a member, if it is registered.
fn body_of(ids: &BodyIds, member: &InjectedMethod) -> Option<BodyId>
    ensures { result ≡ id_in ids.now member.now.code.body }
{
    ids.id(member.code.body)
}

/// An observer of the bean with an index, with what runs where it is notified.
fn planned_with(
    ids: &BodyIds,
    observer: &ObserverMethod,
    bean: usize,
    member: InjectedMethod,
) -> Result<PlannedObserver, AllocError>
    ensures { IfOk result (λ planned. planned
        ≡ spec.planned_with ids.now observer.now bean member) }
{
    let qualifiers = observer.qualifiers.clone()?;
    let body = body_of(ids, &member);
    Ok(PlannedObserver {
        ty: observer.ty,
        qualifiers,
        bean,
        member,
        body,
        conditional: observer.if_exists,
    })
}

/// What plans the observers of a deployment.
#[derive(Drop)]
pub(crate) struct ObserverPlanner<'a> {
    planner: &'a Planner<'a>,
    resolver: &'a Resolver,
    ids: &'a BodyIds,
    /// The managed bean of each class, by its index.
    beans: HashMap<Name, usize>,
    ghost indexed: { (class : ℕ) → get nat_eq beans class
        ≡ spec.managed_bean resolver.now.beans class },
}

impl<'a> ObserverPlanner<'a> {
    /// What plans the observers of a deployment, by what makes its plans, its beans, and the numbers of its bodies.
    pub(crate) fn build(
        alloc: Global,
        planner: &'a Planner<'a>,
        resolver: &'a Resolver,
        ids: &'a BodyIds,
    ) -> Result<ObserverPlanner<'a>, AllocError>
        ensures planner { IfOk result (λ built. built.planner.now ≡ planner.now) }
        ensures resolver { IfOk result (λ built. built.resolver.now ≡ resolver.now) }
        ensures ids { IfOk result (λ built. built.ids.now ≡ ids.now) }
    {
        let beans = managed_beans(alloc, resolver.beans())?;
        Ok(ObserverPlanner {
            planner,
            resolver,
            ids,
            beans,
        })
    }

    /// An observer with what runs where it is notified, if its bean is enabled. The first class of the name of the one that declares it
    /// has to declare it.
    pub(crate) fn planned(
        &self,
        alloc: Global,
        observer: &ObserverMethod,
    ) -> Result<Option<PlannedObserver>, AllocError>
        requires { IsSome (observer_of self.now.planner.now.classes observer.now) }
        ensures { IfOk result (λ planned. planned ≡ spec.planned_observer
            self.now.planner.now self.now.resolver.now self.now.ids.now observer.now) }
    {
        let Some(bean) = self.beans.get(&observer.bean).copied() else {
            return Ok(None);
        };
        if !is_enabled(self.resolver.flags(), bean) {
            return Ok(None);
        }
        let member = self.planner.observer(alloc, observer)?;
        Ok(Some(planned_with(self.ids, observer, bean, member)?))
    }
}
