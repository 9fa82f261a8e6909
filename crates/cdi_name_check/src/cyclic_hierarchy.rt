//! Types above themselves.
use cdi_problems::{Element, Rule};
use cdi_types::TypeGraph;

/// A class or interface is its own proper supertype. An edge to a name that isn't a type's, or is one of the wrong kind, counts.
#[derive(Clone, Copy)]
pub struct CyclicHierarchy<'a> {
    /// The types of the deployment.
    pub types: &'a TypeGraph,
}

impl Rule for CyclicHierarchy<'_> {
    ghost use Rattle.cdi_name_check.specs.CyclicHierarchy.{IsCyclicHierarchy};

    ghost holds_at = { λ rule e. IsCyclicHierarchy rule.types.now e };

    fn holds(&self, element: &Element<'_>) -> bool {
        match element {
            Element::Interface(interface) => self.types.is_cyclic(interface.name),
            Element::Class { class, .. } => self.types.is_cyclic(class.name),
            _ => false,
        }
    }
}
