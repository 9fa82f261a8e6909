//! The fields of a new instance.
ghost use Rattle.std.specs.Prelude.{◌≡◌, IfOk};
ghost use Rattle.cdi_numbered_plans.specs.Machine as machine;

use cdi_base::Fields;
use cdi_deployment::Field;
use std::alloc::{AllocError, Global};

/// The fields of a new instance, each with its first value.
pub fn first_values(alloc: Global, fields: &[Field]) -> Result<Fields, AllocError>
    ensures { IfOk result (λ all. all ≡ machine.first_values fields.now) }
{
    let mut all = Fields::new(alloc);
    for field in fields {
        all.put(field.name, field.value.clone()?)?;
    }
    Ok(all)
}
