//! Of which classes events can be fired.
ghost use Rattle.std.specs.Prelude.{◌≡◌, IfOk};
ghost use Rattle.std.specs.Option.{option_copied};
ghost use Rattle.cdi_event_tables.specs.Events.{is_event_class};
ghost use Rattle.cdi_name_check.specs.NameSets.{HasNames};
ghost use Rattle.cdi_body_check.specs.WrittenNames as written;

use cdi_base::Name;
use cdi_deployment::Class;
use cdi_types::ClassIndex;
use std::alloc::{AllocError, Global};
use std::collections::HashSet;

/// Whether there are instances of a class: it is declared, and not abstract.
fn is_concrete(class: Option<&Class>) -> bool
    ensures { result ≡ written.is_concrete (option_copied class.entry) }
{
    match class {
        Some(class) => !class.is_abstract,
        None => false,
    }
}

/// The names of the classes of which there are instances, by these and an index of them. Of classes with one name the first counts.
pub(crate) fn event_classes(
    alloc: Global,
    classes: &[Class],
    index: &ClassIndex<'_>,
) -> Result<HashSet<Name>, AllocError>
    requires { index.now ≡ classes.now }
    ensures { IfOk result (HasNames (is_event_class classes.now)) }
{
    let mut names = HashSet::new(alloc);
    for class in classes {
        if is_concrete(index.class(class.name)) {
            names.insert(class.name)?;
        }
    }
    Ok(names)
}
