//! Which observers hear an event.
ghost use Rattle.std.specs.Prelude.{◌≡◌, map, filter, IfOk};
ghost use Rattle.cdi_event_tables.specs.Observers as spec;

use crate::observers::PlannedObserver;
use crate::required::has_all;
use cdi_base::{Name, Seq, Use};
use cdi_beans::DeclaredTables;
use std::alloc::{AllocError, Global};

/// Whether an observer hears an event of a class with these qualifiers.
fn is_heard_by(
    declared: &DeclaredTables,
    class: Name,
    qualifiers: &[Use],
    observer: &PlannedObserver,
) -> bool
    ensures { result ≡ spec.is_heard_by declared.now class qualifiers.now observer.now }
{
    declared.types.law_sound();
    declared.types.is_subtype(class, observer.ty)
        && has_all(&declared.qualifiers, qualifiers, &observer.qualifiers)
}

/// Those of some observers that hear an event of a class with these qualifiers, as they were written: their observed type is among the
/// types of the class, and the event has each of their qualifiers; every event has `Any` (Jakarta CDI 4.0, *Observer resolution*).
pub fn heard<'a>(
    alloc: Global,
    declared: &DeclaredTables,
    class: Name,
    qualifiers: &[Use],
    observers: &'a [PlannedObserver],
) -> Result<Seq<&'a PlannedObserver>, AllocError>
    ensures { IfOk result (λ heard. map (λ o. o.now) heard
        ≡ filter (spec.is_heard_by declared.now class qualifiers.now) observers.now) }
{
    let mut heard = Seq::empty(alloc);
    for observer in observers {
        if is_heard_by(declared, class, qualifiers, observer) {
            heard.push(observer)?;
        }
    }
    Ok(heard)
}
