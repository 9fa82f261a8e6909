//! Beans of abstract classes.
use cdi_problems::{Element, Rule};

/// A bean's class is abstract (Jakarta CDI 4.0, *Which Java classes are managed beans?*).
#[derive(Clone, Copy, Debug)]
pub struct AbstractBean;

impl Rule for AbstractBean {
    ghost use Rattle.cdi_bean_check.specs.ManagedBeans.{IsAbstractBean};

    ghost holds_at = { λ rule e. IsAbstractBean e };

    fn holds(&self, element: &Element<'_>) -> bool {
        match element {
            Element::Class { class, .. } => class.bean.is_some() && class.is_abstract,
            _ => false,
        }
    }
}
