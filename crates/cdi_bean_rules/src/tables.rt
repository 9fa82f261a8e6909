//! What the rules of beans look up.
ghost use Rattle.std.specs.Prelude.{◌≡◌};
ghost use Rattle.cdi_types.specs.Declarations.{declarations_of};

use cdi_bean_check::bean_classes::BeanClasses;
use cdi_deployment::Deployment;
use cdi_problems::Element;
use cdi_quals::QualifierTypes;
use cdi_types::{ClassIndex, TypeTable};

/// A deployment with its elements, the tables of its types and its qualifiers, and its classes by their names, each of which is made
/// once.
#[derive(Clone, Copy)]
pub struct RuleTables<'a> {
    pub deployment: &'a Deployment,
    pub elements: &'a [Element<'a>],
    pub types: &'a TypeTable,
    pub qualifiers: &'a QualifierTypes,
    pub classes: &'a ClassIndex<'a>,
    /// Those that are beans.
    pub beans: &'a BeanClasses<'a>,
    ghost types_are: { types.now ≡ declarations_of deployment.now },
    ghost classes_are: { classes.now ≡ deployment.now.classes },
    ghost beans_are: { beans.now ≡ deployment.now.classes },
}
