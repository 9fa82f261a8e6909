//! The observers of enabled beans, as they are kept for a run (Jakarta CDI 4.0, *Observer methods*).
ghost use Rattle.std.specs.Prelude.{◌≡◌, IfOk};
ghost use Rattle.std.specs.List.{AllZip, list_all};
ghost use Rattle.cdi_numbered_plans.specs.Numbered.{AsksOf};
ghost use Rattle.cdi_run_tables.specs.Index as index;
ghost use Rattle.cdi_run_tables.specs.Observers as spec;
ghost use Rattle.cdi_run_tables.specs.Seen.{parts_seen};

use crate::parts::KeptParts;
use crate::tables::RunTables;
use cdi_base::Seq;
use cdi_cache::Lookup;
use cdi_event_tables::{EventTables, ObserverGroup};
use cdi_machine::Observer;
use cdi_numbered_plans::{Numbering, observers_by, observers_have_numbers};
use cdi_resolve::Resolver;
use std::alloc::{AllocError, Global};

/// The observers of each of some groups in the words of an instance's life; none of a group if what its observers name has no numbers.
fn all_observers(
    alloc: Global,
    numbering: &Numbering<'_>,
    lookup: &mut Lookup<&Resolver>,
    groups: &[ObserverGroup],
) -> Result<Seq<Seq<Observer>>, AllocError>
    requires { AsksOf numbering.now lookup.old.now }
    ensures all { IfOk result (AllZip (index.AreGroupBy numbering.now) groups.now) }
    ensures kept { AsksOf numbering.now lookup.new.now }
{
    let mut all = Seq::empty(alloc);
    for group in groups {
        let observers = group.observers.as_slice();
        all.push(observers_by(alloc, numbering, lookup, observers)?)?;
    }
    Ok(all)
}

/// Those of what is looked up of the events of a deployment.
pub(crate) fn observers_of(
    alloc: Global,
    _parts: &KeptParts,
    numbering: &Numbering<'_>,
    lookup: &mut Lookup<&Resolver>,
    events: &EventTables,
) -> Result<Seq<Seq<Observer>>, AllocError>
    requires numbering { index.IsNumberingOf (parts_seen _parts.now) numbering.now }
    requires events { index.AreEventsOf (parts_seen _parts.now) events.now }
    requires asks { index.AsksOf (parts_seen _parts.now) lookup.old.now }
    ensures all { IfOk result
        (AllZip (index.AreObserversOf (parts_seen _parts.now)) (spec.planned_groups (parts_seen _parts.now))) }
    ensures kept { index.AsksOf (parts_seen _parts.now) lookup.new.now }
{
    all_observers(alloc, numbering, lookup, events.observers.as_slice())
}

/// Whether the places of the interceptors round the observers of some groups are below 4,294,967,296.
pub(crate) fn groups_have_numbers(groups: &[ObserverGroup]) -> bool
    ensures { result ≡ list_all spec.group_has_numbers groups.now }
{
    groups
        .iter()
        .all(|group| observers_have_numbers(group.observers.as_slice()))
}

impl RunTables {
    /// The observers of enabled beans, each with what runs where it is notified, in groups by ascending priority (Jakarta CDI 4.0,
    /// *Observer ordering*). In a group they stand in the order of the bean list.
    pub fn observer_groups(&self) -> &[ObserverGroup]
        ensures { result.now ≡ spec.planned_groups self.now }
    {
        self.index.events.observers.as_slice()
    }

    /// The observers of each of these groups in the words of an instance's life; none of a group if what its observers name has no numbers.
    pub(crate) fn numbered_observers(&self) -> &[Seq<Observer>]
        ensures { AllZip (index.AreObserversOf self.now) (spec.planned_groups self.now) result.now }
    {
        self.index.observers.as_slice()
    }
}
