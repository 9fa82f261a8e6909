//! Which observers hear an event.
ghost use Rattle.std.specs.Prelude.{◌≡◌, map, slice_get, IfOk, IsTrue};
ghost use Rattle.std.specs.List.{All};
ghost use Rattle.cdi_event_tables.specs.Observers.{is_heard_by};
ghost use Rattle.cdi_machine.specs.Resolved.{IsResolvedObserver};
ghost use Rattle.cdi_machine.specs.Told.{observer_told};
ghost use Rattle.cdi_run_tables.specs.Machine.{machine_tables};
ghost use Rattle.cdi_run_tables.specs.Numbered.{is_numbered};
ghost use Rattle.cdi_run_tables.specs.Observers as spec;

use crate::tables::RunTables;
use cdi_base::{Name, Seq, Use};
use cdi_beans::DeclaredTables;
use cdi_event_tables::heard::heard;
use cdi_event_tables::{ObserverGroup, PlannedObserver};
use cdi_machine::Observer;
use std::alloc::{AllocError, Global};

/// An event of a class with qualifiers, as they were written, in a deployment that declares types.
#[derive(Drop)]
struct Fired<'a> {
    declared: &'a DeclaredTables,
    class: Name,
    qualifiers: &'a [Use],
}

/// Whether the observer at a place hears an event.
fn is_heard(
    alloc: Global,
    event: &Fired<'_>,
    observers: &[PlannedObserver],
    place: usize,
) -> Result<bool, AllocError>
    ensures { IfOk result (λ is. is ≡ spec.is_heard_at
        (is_heard_by event.now.declared.now event.now.class event.now.qualifiers.now)
        (slice_get observers.now place)) }
{
    if place >= observers.len() {
        return Ok(false);
    }
    let one = &observers[place..place + 1];
    let heard = heard(alloc, event.declared, event.class, event.qualifiers, one)?;
    Ok(!heard.is_empty())
}

/// Those of a group that hear an event, by what is planned of them.
fn heard_in(
    alloc: Global,
    event: &Fired<'_>,
    planned: &[PlannedObserver],
    observers: &[Observer],
) -> Result<Seq<Observer>, AllocError>
    ensures { IfOk result (λ heard. heard ≡ spec.heard_in
        (is_heard_by event.now.declared.now event.now.class event.now.qualifiers.now)
        planned.now observers.now) }
{
    let mut heard = Seq::empty(alloc);
    for (place, observer) in observers.iter().enumerate() {
        if is_heard(alloc, event, planned, place)? {
            heard.push(observer.clone()?)?;
        }
    }
    Ok(heard)
}

/// Those of the group at a place.
fn heard_at(
    alloc: Global,
    event: &Fired<'_>,
    groups: &[ObserverGroup],
    place: usize,
    observers: &[Observer],
) -> Result<Seq<Observer>, AllocError>
    ensures { IfOk result (λ heard. heard ≡ spec.heard_at
        (is_heard_by event.now.declared.now event.now.class event.now.qualifiers.now)
        (slice_get groups.now place) observers.now) }
{
    match groups.get(place) {
        Some(group) => heard_in(alloc, event, group.observers.as_slice(), observers),
        None => Ok(Seq::empty(alloc)),
    }
}

/// Those of all groups; a group in which none hears the event is left out.
fn heard_groups(
    alloc: Global,
    event: &Fired<'_>,
    planned: &[ObserverGroup],
    groups: &[Seq<Observer>],
) -> Result<Seq<Seq<Observer>>, AllocError>
    ensures { IfOk result (λ all. all ≡ spec.heard_groups
        (is_heard_by event.now.declared.now event.now.class event.now.qualifiers.now)
        planned.now groups.now) }
{
    let mut all = Seq::empty(alloc);
    for (place, observers) in groups.iter().enumerate() {
        let heard = heard_at(alloc, event, planned, place, observers.as_slice())?;
        if !heard.is_empty() {
            all.push(heard)?;
        }
    }
    Ok(all)
}

impl RunTables {
    /// The observers that hear an event of a class with these qualifiers, as they were written: those of enabled beans whose observed
    /// type is among the types of the class, and whose qualifiers the event all has; every event has `Any` (Jakarta CDI 4.0, *Observer
    /// resolution*). They stand in groups by ascending priority, and in a group in the order of the bean list (Jakarta CDI 4.0,
    /// *Observer ordering*); no group is empty. It goes over the observers of enabled beans, and copies those that hear the event. What
    /// these name has to be numbered ([`RunTables::is_numbered`]).
    pub fn observers(
        &self,
        alloc: Global,
        class: Name,
        qualifiers: &[Use],
    ) -> Result<Seq<Seq<Observer>>, AllocError>
        requires { IsTrue (is_numbered self.now) }
        ensures heard { IfOk result (λ groups. map (map observer_told) groups
            ≡ (machine_tables self.now).observers class qualifiers.now) }
        ensures resolved { IfOk result (λ groups.
            All (All (IsResolvedObserver (machine_tables self.now).resolve)) groups) }
    {
        let event = Fired {
            declared: &self.parts.tables.declared,
            class,
            qualifiers,
        };
        heard_groups(
            alloc,
            &event,
            self.observer_groups(),
            self.numbered_observers(),
        )
    }
}
