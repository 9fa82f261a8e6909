//! Where a problem holds.
ghost use Rattle.std.specs.Prelude.{◌≡◌, IfOk};
ghost use Rattle.cdi_problems.specs.Elements.{shown};
ghost use Rattle.cdi_problems.specs.Findings.{ArePlacesOf, ListPlacesWhere};

use crate::distinct::once;
use crate::element::Element;
use cdi_base::{Place, Seq};
use std::alloc::{AllocError, Global};

/// A problem that elements of a deployment can have, as a test.
pub trait Rule {
    ghost use Rattle.std.specs.Prelude.{◌↔◌, IsTrue};
    ghost use Rattle.cdi_problems.specs.Elements.{Element as Shown, element_of};

    /// The sentence that says of an element that it has the problem.
    ghost holds_at: { Self → Shown → Type 0 };

    /// Whether an element has the problem.
    fn holds(&self, element: &Element<'_>) -> bool
        ensures { IsTrue result ↔ holds_at self.now (element_of element.now) };
}

/// The places of the elements that have a problem, with repeats.
fn list_places<R: Rule>(
    alloc: Global,
    rule: &R,
    elements: &[Element<'_>],
) -> Result<Seq<Place>, AllocError>
    ensures { IfOk result (ListPlacesWhere (R.holds_at rule.now) (shown elements.now)) }
{
    let mut found = Seq::empty(alloc);
    for element in elements {
        if rule.holds(element) {
            found.push(element.place())?;
        }
    }
    Ok(found)
}

/// The places of those elements that have a problem, in their order, each once.
pub fn places_where<R: Rule>(
    alloc: Global,
    rule: &R,
    elements: &[Element<'_>],
) -> Result<Seq<Place>, AllocError>
    ensures { IfOk result (ArePlacesOf (R.holds_at rule.now) (shown elements.now)) }
{
    let found = list_places(alloc, rule, elements)?;
    once(alloc, found.as_slice())
}
