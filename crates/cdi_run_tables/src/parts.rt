//! What is kept of a deployment for a run.
ghost use Rattle.std.specs.Prelude.{◌≡◌, IfOk};
ghost use Rattle.cdi_bodies.specs.Gives.{lookups_of};
ghost use Rattle.cdi_bodies.specs.Table.{entries_of};
ghost use Rattle.cdi_resolve.specs.BeanTables.{AreTablesOf};
ghost use Rattle.cdi_event_tables.specs.Tables.{AreEventTables};
ghost use Rattle.cdi_run_tables.specs.Index.{AreEventsOf};
ghost use Rattle.cdi_run_tables.specs.Kept.{AreBeansOf, AreKept};
ghost use Rattle.cdi_run_tables.specs.Machine as spec;
ghost use Rattle.cdi_run_tables.specs.Planned.{IsTabled, plan_tables};
ghost use Rattle.cdi_run_tables.specs.Seen.{parts_seen};

use crate::index::REMEMBERED;
use cdi_base::Seq;
use cdi_bean_lives::KeptBeans;
use cdi_bodies::{Bodies, Lookup};
use cdi_cache::Lookup as Lookups;
use cdi_deployment::Deployment;
use cdi_event_tables::{BodyIds, EventTables};
use cdi_numbered_plans::Numbering;
use cdi_planner::Planner;
use cdi_planner::laws::{law_beans_are_declared, law_observers_are_declared};
use cdi_resolve::BeanTables;
use std::alloc::{AllocError, Global};
use std::num::NonZeroUsize;

/// A deployment with its tables, what is kept of its beans, and the numbers and lookups of its bodies.
pub struct KeptParts {
    pub(crate) deployment: Deployment,
    pub(crate) tables: BeanTables,
    pub(crate) beans: KeptBeans,
    pub(crate) ids: BodyIds,
    /// Those of each registered body, by its number.
    pub(crate) lookups: Seq<Seq<Lookup>>,
}

/// In one call, so that the proof of each function that owns all parts has one step here, and not one for each of them.
impl Drop for KeptParts {
    fn drop(self) {
        let KeptParts {
            deployment: _deployment,
            tables: _tables,
            beans: _beans,
            ids: _ids,
            lookups: _lookups,
        } = self;
    }
}

/// What is planned of a deployment: its beans, in their order, and what is looked up of its events.
#[derive(Drop)]
struct Plans {
    beans: KeptBeans,
    events: EventTables,
}

/// What is kept of the beans of a deployment whose names and beans have no problem, with the tables of its bean list and the numbers of
/// its bodies.
fn kept_beans(
    alloc: Global,
    deployment: &Deployment,
    tables: &BeanTables,
    ids: &BodyIds,
    planner: &Planner<'_>,
) -> Result<KeptBeans, AllocError>
    requires tables { AreTablesOf deployment.now tables.now }
    requires planner { planner.now ≡ plan_tables deployment.now tables.now }
    ensures { IfOk result (AreBeansOf deployment.now tables.now ids.now) }
{
    law_beans_are_declared();
    let capacity = NonZeroUsize::new(REMEMBERED).unwrap();
    let mut lookup = Lookups::new(alloc, &tables.resolver, capacity)?;
    let qualifiers = &tables.declared.qualifiers;
    let resolver = &tables.resolver;
    let numbering = Numbering::build(alloc, ids, &deployment.names, qualifiers, resolver)?;
    KeptBeans::build(alloc, planner, &numbering, &mut lookup, resolver.beans())
}

impl Plans {
    /// Those of a deployment whose names and beans have no problem, with the tables of its bean list and the numbers of its bodies.
    fn build(
        alloc: Global,
        deployment: &Deployment,
        tables: &BeanTables,
        ids: &BodyIds,
    ) -> Result<Plans, AllocError>
        requires { AreTablesOf deployment.now tables.now }
        ensures beans { IfOk result
            (λ plans. AreBeansOf deployment.now tables.now ids.now plans.beans) }
        ensures events { IfOk result (λ plans. AreEventTables
            (plan_tables deployment.now tables.now) tables.now ids.now plans.events) }
    {
        law_observers_are_declared();
        let planner = Planner::build(
            alloc,
            deployment,
            &tables.declared.types,
            &tables.declared.qualifiers,
            &tables.chains,
        )?;
        let beans = kept_beans(alloc, deployment, tables, ids, &planner)?;
        let events = EventTables::build(alloc, deployment, tables, &planner, ids)?;
        Ok(Plans { beans, events })
    }
}

/// The parts of a deployment with what is looked up of its events.
#[derive(Drop)]
pub(crate) struct PartsWithEvents {
    pub(crate) parts: KeptParts,
    pub(crate) events: EventTables,
}

impl PartsWithEvents {
    /// Those of a deployment whose names and beans have no problem, with the tables of its bean list. Its members have the bodies
    /// that are registered under their names.
    pub(crate) fn build(
        alloc: Global,
        deployment: Deployment,
        tables: BeanTables,
        bodies: &Bodies,
    ) -> Result<PartsWithEvents, AllocError>
        requires { AreTablesOf deployment tables }
        ensures deployment { IfOk result (λ t. t.parts.deployment ≡ deployment) }
        ensures tables { IfOk result (λ t. t.parts.tables ≡ tables) }
        ensures tabled { IfOk result (λ t. IsTabled (parts_seen t.parts)) }
        ensures kept { IfOk result (λ t. AreKept t.parts) }
        ensures ids { IfOk result
            (λ t. spec.AreIdsOf (entries_of bodies.now) (parts_seen t.parts)) }
        ensures lookups { IfOk result (λ t.
            t.parts.lookups ≡ lookups_of (entries_of bodies.now)) }
        ensures events { IfOk result (λ t. AreEventsOf (parts_seen t.parts) t.events) }
    {
        let ids = BodyIds::build(alloc, &deployment, bodies)?;
        let plans = Plans::build(alloc, &deployment, &tables, &ids)?;
        let lookups = bodies.lookups(alloc)?;
        let Plans { beans, events } = plans;
        let parts = KeptParts {
            deployment,
            tables,
            beans,
            ids,
            lookups,
        };
        Ok(PartsWithEvents { parts, events })
    }
}
