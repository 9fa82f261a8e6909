//! The types of beans.
ghost use Rattle.std.specs.Prelude.{IfOk};
ghost use Rattle.cdi_types.specs.ListsThose.{ListsThose};
ghost use Rattle.cdi_types.specs.Subtype.{all_types};
ghost use Rattle.cdi_bean_check.specs.BeanTypes as spec;

use cdi_base::{Name, Seq};
use cdi_bean_check::is_left;
use cdi_types::TypeTable;
use std::alloc::{AllocError, Global};

/// The bean types of what has this type and is restricted so (Jakarta CDI 4.0, *Bean types*).
pub(crate) fn bean_types(
    alloc: Global,
    types: &TypeTable,
    of: Name,
    typed: &Option<Seq<Name>>,
) -> Result<Seq<Name>, AllocError>
    ensures { IfOk result (λ found.
        ListsThose (spec.IsBeanType types.now of typed.now) (all_types types.now) found) }
{
    let above = types.types_of(alloc, of)?;
    let mut found = Seq::empty(alloc);
    for name in above.as_slice() {
        if is_left(typed, *name) {
            found.push(*name)?;
        }
    }
    Ok(found)
}
