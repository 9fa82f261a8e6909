//! The observers in the order of their priorities.
ghost use Rattle.std.specs.Prelude.{◌≡◌, map, IfOk};
ghost use Rattle.std.specs.List.{enumerate_from};
ghost use Rattle.cdi_observers.specs.Order as spec;

use cdi_base::Seq;
use cdi_beans::ObserverMethod;
use std::alloc::{AllocError, Global};

/// An observer by its index, with its priority.
#[derive(Clone, Copy)]
pub(crate) struct RankedObserver {
    pub(crate) priority: i64,
    pub(crate) index: usize,
}

/// The observers by their indices, with their priorities.
fn ranked(alloc: Global, observers: &[ObserverMethod]) -> Result<Vec<RankedObserver>, AllocError>
    ensures { IfOk result
        (λ ranked. ranked.items ≡ map spec.ranked (enumerate_from 0 observers.now)) }
{
    let mut ranked = Vec::new(alloc);
    for (index, observer) in observers.iter().enumerate() {
        ranked.push(RankedObserver {
            priority: observer.priority,
            index,
        })?;
    }
    Ok(ranked)
}

/// The observers by ascending priority, and of equal priority as they stand.
pub(crate) fn order_of(
    alloc: Global,
    observers: &[ObserverMethod],
) -> Result<Seq<RankedObserver>, AllocError>
    ensures { IfOk result (spec.IsOrderOf observers.now) }
{
    let mut order = ranked(alloc, observers)?;
    order.sort_by_key(|observer| observer.priority)?;
    Ok(Seq::new(order))
}
