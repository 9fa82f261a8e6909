//! The cycle that a dependent bean stands on which needs itself.
ghost use Rattle.std.specs.Prelude.{◌≡◌, ◌++◌, string_bytes, OnOk};
ghost use Rattle.std.specs.Option.{option_copied};
ghost use Rattle.cdi_problem_hints.specs.Cycle as spec;

use crate::subject::Subject;
use cdi_base::Place;
use cdi_cycle_hints::{add_needs_cycle, needs_of};
use std::alloc::{AllocError, Global};

/// Adds the beans on a cycle of dependent beans that need each other, from the one at a place back to it (Jakarta CDI 4.0, *Dependent
/// pseudo-scope*), by the tables of the deployment, if there are any.
pub(crate) fn add_dependent_cycle(
    alloc: Global,
    subject: &Subject<'_>,
    place: &Option<Place>,
    hint: &mut String,
) -> Result<(), AllocError>
    ensures { OnOk result (string_bytes hint.new ≡ string_bytes hint.old
        ++ spec.dependent_cycle_text subject.now.deployment.now
        (option_copied subject.now.tables) place.now) }
{
    let Some(tables) = subject.tables else {
        return Ok(());
    };
    let Some(place) = place else {
        return Ok(());
    };
    let names = &subject.deployment.names;
    let beans = tables.resolver.beans();
    match subject.needs {
        Some(needs) => add_needs_cycle(alloc, names, beans, needs, place, hint),
        None => {
            let needs = needs_of(alloc, subject.deployment, tables)?;
            add_needs_cycle(alloc, names, beans, &needs, place, hint)
        }
    }
}
