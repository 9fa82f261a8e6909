//! What is looked up of a deployment in a run, made once.
ghost use Rattle.std.specs.Prelude.{IfOk};
ghost use Rattle.cdi_name_check.specs.NameSets.{HasDeclared};
ghost use Rattle.cdi_run_tables.specs.Index as spec;
ghost use Rattle.cdi_run_tables.specs.Seen.{parts_seen};

use crate::asked::CommandAnswers;
use crate::exceptions::checked_exceptions;
use crate::interceptor_steps::all_steps;
use crate::observers::observers_of;
use crate::parts::KeptParts;
use cdi_base::{Name, Seq};
use cdi_cache::Lookup;
use cdi_event_tables::EventTables;
use cdi_machine::{Observer, Step};
use cdi_name_check::NameSets;
use cdi_numbered_plans::Numbering;
use std::alloc::{AllocError, Global};
use std::collections::HashSet;
use std::num::NonZeroUsize;

/// How many answers of resolution are remembered while the injection points of a deployment are resolved.
pub(crate) const REMEMBERED: usize = 256;

/// What is looked up of a deployment.
pub(crate) struct RunIndex {
    pub(crate) names: NameSets,
    /// The names of the checked exceptions.
    pub(crate) checked: HashSet<Name>,
    pub(crate) events: EventTables,
    /// The steps by which an instance of each enabled interceptor is created; none if there are too many beans to be numbered.
    pub(crate) interceptor_steps: Seq<Seq<Step>>,
    /// The observers of each group of planned ones; none if what these name has no numbers.
    pub(crate) observers: Seq<Seq<Observer>>,
    /// What the last commands asked for resolves to.
    pub(crate) asked: CommandAnswers,
}

/// In one call, so that the proof of each function that owns an index has one step here, and not one for each of its parts.
impl Drop for RunIndex {
    fn drop(self) {
        let RunIndex {
            names: _names,
            checked: _checked,
            events: _events,
            interceptor_steps: _interceptor_steps,
            observers: _observers,
            asked: _asked,
        } = self;
    }
}

impl RunIndex {
    /// That of a deployment with the names that it declares and what is looked up of its events.
    pub(crate) fn build(
        alloc: Global,
        parts: &KeptParts,
        names: NameSets,
        events: EventTables,
    ) -> Result<RunIndex, AllocError>
        requires names { HasDeclared parts.now.deployment names }
        requires events { spec.AreEventsOf (parts_seen parts.now) events }
        ensures { IfOk result (spec.IsIndexOf (parts_seen parts.now)) }
    {
        let deployment = &parts.deployment;
        let capacity = NonZeroUsize::new(REMEMBERED).unwrap();
        let mut lookup = Lookup::new(alloc, &parts.tables.resolver, capacity)?;
        let numbering = Numbering::build(
            alloc,
            &parts.ids,
            &deployment.names,
            &parts.tables.declared.qualifiers,
            &parts.tables.resolver,
        )?;
        Ok(RunIndex {
            names,
            checked: checked_exceptions(alloc, deployment.exceptions.as_slice())?,
            observers: observers_of(alloc, parts, &numbering, &mut lookup, &events)?,
            events,
            interceptor_steps: all_steps(alloc, parts, &numbering, &mut lookup)?,
            asked: CommandAnswers::new(alloc)?,
        })
    }
}
