//! What is looked up of events.
ghost use Rattle.std.specs.Prelude.{◌≡◌, IfOk, IsSome};
ghost use Rattle.std.specs.List.{All};
ghost use Rattle.cdi_event_tables.specs.Tables as spec;
ghost use Rattle.cdi_planner.specs.Observers.{observer_of};

use crate::event_classes::event_classes;
use crate::ids::BodyIds;
use crate::observer_groups::{ObserverGroup, observer_groups};
use cdi_base::{Name, Seq};
use cdi_deployment::Deployment;
use cdi_planner::Planner;
use cdi_resolve::BeanTables;
use std::alloc::{AllocError, Global};
use std::collections::HashSet;

/// What is looked up of the events of a deployment, made once.
#[derive(Drop)]
pub struct EventTables {
    /// The names of the classes of which there are instances.
    pub classes: HashSet<Name>,
    /// The observers of enabled beans, by ascending priority.
    pub observers: Seq<ObserverGroup>,
}

impl EventTables {
    /// That of a deployment with its tables, what makes its plans and the numbers of its bodies. Of each observer the first class of the
    /// name of the one that declares it has to declare it, as it does in a deployment whose names have no problem
    /// ([`law_observers_are_declared`](cdi_planner::laws::law_observers_are_declared)). It goes over the classes, the beans and the
    /// observers, and for each of these over the priorities.
    pub fn build(
        alloc: Global,
        deployment: &Deployment,
        tables: &BeanTables,
        planner: &Planner<'_>,
        ids: &BodyIds,
    ) -> Result<EventTables, AllocError>
        requires classes { planner.now.classes ≡ deployment.now.classes }
        requires declared { All (λ o. IsSome (observer_of planner.now.classes o))
            tables.now.observers }
        ensures { IfOk result (spec.AreEventTables planner.now tables.now ids.now) }
    {
        let all = tables.observers.as_slice();
        Ok(EventTables {
            classes: event_classes(alloc, deployment.classes.as_slice(), planner.classes())?,
            observers: observer_groups(alloc, planner, &tables.resolver, ids, all)?,
        })
    }
}
