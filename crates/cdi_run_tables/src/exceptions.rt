//! Which exceptions are checked.
ghost use Rattle.std.specs.Prelude.{◌≡◌, IfOk};
ghost use Rattle.cdi_body_check.specs.Exceptions as declared;
ghost use Rattle.cdi_name_check.specs.NameSets.{HasNames};
ghost use Rattle.cdi_run_tables.specs.Machine as spec;

use crate::tables::RunTables;
use cdi_base::Name;
use cdi_deployment::Exception;
use std::alloc::{AllocError, Global};
use std::collections::HashSet;

/// The names of the exceptions that are declared checked.
pub(crate) fn checked_exceptions(
    alloc: Global,
    exceptions: &[Exception],
) -> Result<HashSet<Name>, AllocError>
    ensures { IfOk result (HasNames (declared.is_checked exceptions.now)) }
{
    let mut names = HashSet::new(alloc);
    for exception in exceptions {
        if exception.checked {
            names.insert(exception.name)?;
        }
    }
    Ok(names)
}

impl RunTables {
    /// Whether an exception is declared checked. A built-in one is unchecked, and so is one that isn't declared.
    pub fn is_checked(&self, exception: Name) -> bool
        ensures { result ≡ (spec.machine_tables self.now).is_checked exception }
    {
        self.index.checked.contains(&exception)
    }
}
