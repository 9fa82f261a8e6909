//! The classes that are beans, by their names.
ghost use Rattle.std.specs.Prelude.{◌≡◌, ◌==◌, ◌&&◌, ℕ, position, nat_eq, IfOk};
ghost use Rattle.std.specs.HashMap.{get};
ghost use Rattle.std.specs.Option.{option_copied};
ghost use Rattle.cdi_bean_check.specs.ManagedBeans as spec;
ghost use Rattle.cdi_bean_check.specs.Qualifiers.{specialized_bean};

use crate::bean_names::is_bean;
use crate::specialization::says_specializes;
use cdi_base::Name;
use cdi_deployment::Class;
use std::alloc::{AllocError, Global};
use std::collections::HashMap;
use std::marker::Model;

/// The classes of a deployment, of which those that are beans are found by their names in constant time. Contracts see the list of
/// all the classes.
#[derive(Drop)]
pub struct BeanClasses<'a> {
    classes: &'a [Class],
    places: HashMap<Name, usize>,
}

impl<'a> Model for BeanClasses<'a> {
    ghost use Rattle.std.specs.Prelude.{List, ◌≡◌, ◌==◌, ◌&&◌, ℕ, position, nat_eq};
    ghost use Rattle.std.specs.HashMap.{get};
    ghost use Rattle.cdi_deployment.specs.declared.deployment.Class.{Class};
    ghost use Rattle.cdi_bean_check.specs.ManagedBeans.{is_bean};

    ghost Value = { List Class };

    ghost view = { λ t. t.classes.now };

    ghost invariant = { λ t. (name : ℕ)
        → get nat_eq t.places name ≡ position (λ c. (c.name == name) && is_bean c) t.classes.now };
}

/// The place of the first class of each name that is a bean.
fn places_of(alloc: Global, classes: &[Class]) -> Result<HashMap<Name, usize>, AllocError>
    ensures { IfOk result (λ places. (name : ℕ) → get nat_eq places name
        ≡ position (λ c. (c.name == name) && spec.is_bean c) classes.now) }
{
    let mut places = HashMap::new(alloc);
    for (place, class) in classes.iter().enumerate() {
        if is_bean(class) && !places.contains_key(&class.name) {
            places.insert(class.name, place)?;
        }
    }
    Ok(places)
}

impl<'a> BeanClasses<'a> {
    /// The classes of a deployment.
    pub fn build(alloc: Global, classes: &'a [Class]) -> Result<BeanClasses<'a>, AllocError>
        ensures { IfOk result (λ beans. beans ≡ classes.now) }
    {
        let places = places_of(alloc, classes)?;
        Ok(BeanClasses { classes, places })
    }

    /// The class of a name, if that is a bean's. If several have it, the first one counts.
    pub fn class(&self, name: Name) -> Option<&'a Class>
        ensures { option_copied result ≡ spec.bean_class self.now name }
    {
        let place = self.places.get(&name).copied()?;
        self.classes.get(place)
    }

    /// The bean, by its class, that a class directly extends.
    pub fn extended(&self, class: &Class) -> Option<&'a Class>
        ensures { option_copied result ≡ spec.extended_bean self.now class.now }
    {
        match class.extends {
            Some(name) => self.class(name),
            None => None,
        }
    }

    /// The bean, by its class, that a class directly specializes (Jakarta CDI 4.0, *Specialization*), if it does.
    pub fn specialized(&self, class: &Class) -> Option<&'a Class>
        ensures { option_copied result ≡ specialized_bean self.now class.now }
    {
        if !says_specializes(&class.bean) {
            return None;
        }
        self.extended(class)
    }
}
