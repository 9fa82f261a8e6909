//! Names that stand twice.
ghost use Rattle.std.specs.Prelude.{IfOk};
ghost use Rattle.cdi_name_check.specs.DuplicateName.{HasDuplicateName, ListDuplicates};
ghost use Rattle.cdi_problems.specs.Elements.{shown};
ghost use Rattle.cdi_problems.specs.Findings.{ArePlacesAfter};

use crate::claims::Claims;
use cdi_base::{Place, Seq};
use cdi_problems::{Element, once};
use std::alloc::{AllocError, Global};

/// The places of the elements that claim what is claimed before them, with repeats.
fn list_duplicates(alloc: Global, elements: &[Element<'_>]) -> Result<Seq<Place>, AllocError>
    ensures { IfOk result (ListDuplicates (shown elements.now)) }
{
    let mut claims = Claims::built_in(alloc)?;
    let mut found = Seq::empty(alloc);
    for element in elements {
        let again = claims.claim(element)?;
        if again {
            found.push(element.place())?;
        }
    }
    Ok(found)
}

/// The places of the elements that claim for themselves alone what a built-in name or an element before them claims, in their order,
/// each once: of types, qualifiers, bindings, exceptions, scripts, selected alternatives or enabled interceptors of one name, of
/// fields and members of one name in a class or an interceptor, and of two callbacks of one kind in a class. It takes time in
/// proportion to the number of elements.
pub fn duplicate_places(alloc: Global, elements: &[Element<'_>]) -> Result<Seq<Place>, AllocError>
    ensures { IfOk result (ArePlacesAfter HasDuplicateName (shown elements.now)) }
{
    let found = list_duplicates(alloc, elements)?;
    once(alloc, found.as_slice())
}
