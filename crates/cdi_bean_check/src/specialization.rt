//! Specialization.
ghost use Rattle.std.specs.Prelude.{◌≡◌};
ghost use Rattle.cdi_bean_check.specs.ManagedBeans as spec;

use crate::bean_names::BeanNames;
use cdi_deployment::{Bean, Class};
use cdi_problems::{Element, Rule};

/// A bean specializes, and its class doesn't directly extend the class of a bean (Jakarta CDI 4.0, *Specialization*).
#[derive(Clone, Copy)]
pub struct SpecializesNothing<'a> {
    /// The names of the classes that are beans.
    pub beans: &'a BeanNames,
}

pub(crate) fn says_specializes(bean: &Option<Bean>) -> bool
    ensures { result ≡ spec.says_specializes bean.now }
{
    match bean {
        Some(bean) => bean.specializes,
        None => false,
    }
}

/// Whether a class directly extends the class of a bean.
fn extends_bean(beans: &BeanNames, class: &Class) -> bool
    ensures { result ≡ spec.extends_one_of beans.now class.now }
{
    match class.extends {
        Some(name) => beans.contains(name),
        None => false,
    }
}

impl Rule for SpecializesNothing<'_> {
    ghost use Rattle.cdi_bean_check.specs.ManagedBeans.{SpecializesNothing as Holds};

    ghost holds_at = { λ rule e. Holds rule.beans.now e };

    fn holds(&self, element: &Element<'_>) -> bool {
        match element {
            Element::Class { class, .. } => {
                says_specializes(&class.bean) && !extends_bean(self.beans, class)
            }
            _ => false,
        }
    }
}
