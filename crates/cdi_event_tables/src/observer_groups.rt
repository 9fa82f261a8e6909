//! The planned observers in groups by their priorities.
ghost use Rattle.std.specs.Prelude.{◌≡◌, slice_get, IfOk, IsSome, OnOk};
ghost use Rattle.std.specs.List.{All};
ghost use Rattle.cdi_event_tables.specs.Observers as spec;
ghost use Rattle.cdi_planner.specs.Observers.{observer_of};

use crate::ids::BodyIds;
use crate::observers::{ObserverPlanner, PlannedObserver};
use cdi_base::Seq;
use cdi_beans::ObserverMethod;
use cdi_planner::Planner;
use cdi_resolve::Resolver;
use std::alloc::{AllocError, Global};

/// Observers of one priority, in the order of the bean list.
#[derive(Drop)]
pub struct ObserverGroup {
    pub priority: i64,
    pub observers: Seq<PlannedObserver>,
}

/// The place of the first group whose priority isn't below this one.
fn place_of(groups: &[ObserverGroup], priority: i64) -> usize
    ensures { result ≡ spec.place_of priority groups.now }
{
    for (place, group) in groups.iter().enumerate() {
        if group.priority >= priority {
            return place;
        }
    }
    groups.len()
}

/// Whether the group at a place has this priority.
fn has_priority(groups: &[ObserverGroup], place: usize, priority: i64) -> bool
    ensures { result ≡ spec.has_priority priority (slice_get groups.now place) }
{
    match groups.get(place) {
        Some(group) => group.priority == priority,
        None => false,
    }
}

/// Adds an observer to the group of its priority, at the end. The groups stand by ascending priority.
fn add_observer(
    alloc: Global,
    groups: &mut Vec<ObserverGroup>,
    priority: i64,
    observer: PlannedObserver,
) -> Result<(), AllocError>
    ensures { OnOk result (groups.new.items
        ≡ spec.with_planned priority observer groups.old.items) }
{
    let place = place_of(groups.as_slice(), priority);
    if has_priority(groups.as_slice(), place, priority) {
        groups[place].observers.push(observer)?;
        return Ok(());
    }
    let mut observers = Seq::empty(alloc);
    observers.push(observer)?;
    groups.insert(
        place,
        ObserverGroup {
            priority,
            observers,
        },
    )?;
    Ok(())
}

/// Adds an observer, if its bean is enabled. The first class of the name of the one that declares it has to declare it.
fn add_planned(
    alloc: Global,
    planner: &ObserverPlanner<'_>,
    groups: &mut Vec<ObserverGroup>,
    observer: &ObserverMethod,
) -> Result<(), AllocError>
    requires { IsSome (observer_of planner.now.planner.now.classes observer.now) }
    ensures { OnOk result (groups.new.items ≡ spec.with_next planner.now.planner.now
        planner.now.resolver.now planner.now.ids.now groups.old.items observer.now) }
{
    match planner.planned(alloc, observer)? {
        Some(planned) => add_observer(alloc, groups, observer.priority, planned),
        None => Ok(()),
    }
}

/// Those of some observers whose beans are enabled, in groups by ascending priority, each with what runs where it is notified. They are
/// planned by what makes the plans of their deployment, and their beans are found by their classes. Of each the first class of the name
/// of the one that declares it has to declare it. It goes over the beans, over the observers, and for each of these over the groups.
pub(crate) fn observer_groups(
    alloc: Global,
    planner: &Planner<'_>,
    resolver: &Resolver,
    ids: &BodyIds,
    observers: &[ObserverMethod],
) -> Result<Seq<ObserverGroup>, AllocError>
    requires { All (λ o. IsSome (observer_of planner.now.classes o)) observers.now }
    ensures { IfOk result (λ groups. groups
        ≡ spec.observer_groups planner.now resolver.now ids.now observers.now) }
{
    let planning = ObserverPlanner::build(alloc, planner, resolver, ids)?;
    let mut groups = Vec::new(alloc);
    for observer in observers {
        add_planned(alloc, &planning, &mut groups, observer)?;
    }
    Ok(Seq::new(groups))
}
