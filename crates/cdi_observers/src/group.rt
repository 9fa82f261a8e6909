//! Groups of observers of one priority.
ghost use Rattle.std.specs.Prelude.{◌≡◌, ◌++◌, IfOk, OnOk};
ghost use Rattle.cdi_observers.specs.Runs as spec;

use crate::order::RankedObserver;
use cdi_base::Seq;
use std::alloc::{AllocError, Global};

/// Observers of one priority that hear an event, which may be called in any order (Jakarta CDI 4.0, *Observer ordering*).
#[derive(Debug, Drop)]
pub struct ObserverGroup {
    pub priority: i64,
    /// Their indices among the enabled observers, ascending; there is at least one.
    pub observers: Seq<usize>,
}

/// The group of one observer.
fn group_with(alloc: Global, observer: &RankedObserver) -> Result<ObserverGroup, AllocError>
    ensures { IfOk result (λ group. group ≡ spec.group_with observer.now) }
{
    let mut observers = Seq::empty(alloc);
    observers.push(observer.index)?;
    Ok(ObserverGroup {
        priority: observer.priority,
        observers,
    })
}

/// The group of the next observer: the one before it, if that has its priority. Else that one is whole, and is added to the groups.
fn next_group(
    alloc: Global,
    mut group: ObserverGroup,
    observer: &RankedObserver,
    groups: &mut Seq<ObserverGroup>,
) -> Result<ObserverGroup, AllocError>
    ensures next { IfOk result (λ next. next ≡ spec.next_group group observer.now) }
    ensures whole { OnOk result (groups.new ≡ groups.old ++ spec.whole_groups group observer.now) }
{
    if observer.priority == group.priority {
        group.observers.push(observer.index)?;
        return Ok(group);
    }
    groups.push(group)?;
    group_with(alloc, observer)
}

/// The groups of observers that stand by ascending priority.
pub(crate) fn groups_of(
    alloc: Global,
    observers: &[RankedObserver],
) -> Result<Seq<ObserverGroup>, AllocError>
    ensures { IfOk result (λ groups. groups ≡ spec.groups_in observers.now) }
{
    let mut groups = Seq::empty(alloc);
    let Some((first, rest)) = observers.split_first() else {
        return Ok(groups);
    };
    let mut group = group_with(alloc, first)?;
    for observer in rest {
        group = next_group(alloc, group, observer, &mut groups)?;
    }
    groups.push(group)?;
    Ok(groups)
}
