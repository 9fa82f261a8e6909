//! The names of the classes that are beans.
ghost use Rattle.std.specs.Prelude.{◌≡◌, IfOk};
ghost use Rattle.cdi_bean_check.specs.ManagedBeans as spec;
ghost use Rattle.cdi_deployment.specs.Lists.{stands_in};

use cdi_base::{Name, Seq};
use cdi_deployment::Class;
use std::alloc::{AllocError, Global};
use std::collections::HashSet;
use std::marker::Model;

/// The names of the classes that are beans. Contracts see the list, in the order of the classes; a question takes constant time.
#[derive(Drop)]
pub struct BeanNames {
    names: Seq<Name>,
    set: HashSet<Name>,
}

impl Model for BeanNames {
    ghost use Rattle.std.specs.Prelude.{List, ℕ};
    ghost use Rattle.cdi_bean_check.specs.NameSets.{HasNames};

    ghost Value = { List ℕ };

    ghost view = { λ b. b.names };

    ghost invariant = { λ b. HasNames b.names b.set };
}

/// Whether a class is a bean.
pub fn is_bean(class: &Class) -> bool
    ensures { result ≡ spec.is_bean class.now }
{
    class.bean.is_some()
}

impl BeanNames {
    /// The names of those of some classes that are beans.
    pub fn build(alloc: Global, classes: &[Class]) -> Result<BeanNames, AllocError>
        ensures { IfOk result (λ beans. beans ≡ spec.bean_names classes.now) }
    {
        let mut names = Seq::empty(alloc);
        let mut set = HashSet::new(alloc);
        for class in classes {
            if is_bean(class) {
                set.insert(class.name)?;
                names.push(class.name)?;
            }
        }
        Ok(BeanNames { names, set })
    }

    /// Whether a name is that of a bean's class.
    pub fn contains(&self, name: Name) -> bool
        ensures { result ≡ stands_in self.now name }
    {
        self.set.contains(&name)
    }
}
