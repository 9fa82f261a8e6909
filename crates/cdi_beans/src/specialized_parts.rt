//! What beans have of the beans that they specialize.
ghost use Rattle.std.specs.Prelude.{◌≡◌, map, Some, Contains, IfOk, OnOk};
ghost use Rattle.cdi_bean_check.specs.ManagedBeans.{bean_class};
ghost use Rattle.cdi_bean_check.specs.Qualifiers.{full_uses};
ghost use Rattle.cdi_beans.specs.ManagedQualifiers.{own_uses, qualifiers_in, AreSpecialized};
ghost use Rattle.cdi_beans.specs.SpecializedParts.{HasOwn};
ghost use Rattle.cdi_types.specs.Declarations.{of_class};
ghost use Rattle.cdi_types.specs.Subtype.{IsAcyclic};

use crate::uses::own_qualifiers;
use cdi_base::{Name, Seq};
use cdi_bean_check::BeanClasses;
use cdi_deployment::Class;
use cdi_quals::{Qualifier, QualifierTypes};
use std::alloc::{AllocError, Global};
use std::collections::HashMap;
use std::rc::Rc;

/// The own qualifiers of beans that others specialize, by the names of their classes: all that specialize one hold these in common.
#[derive(Drop)]
pub(crate) struct SpecializedParts {
    parts: HashMap<Name, Rc<Seq<Qualifier>>>,
}

impl SpecializedParts {
    /// Those of no bean.
    pub(crate) fn new(alloc: Global) -> SpecializedParts
        ensures { (classes : _) (types : _) → HasOwn classes types result }
    {
        SpecializedParts {
            parts: HashMap::new(alloc),
        }
    }

    /// The own qualifiers of a bean that others specialize.
    fn part(
        &mut self,
        alloc: Global,
        types: &QualifierTypes,
        beans: &BeanClasses<'_>,
        class: &Class,
    ) -> Result<Rc<Seq<Qualifier>>, AllocError>
        requires found { bean_class beans.now class.now.name ≡ Some class.now }
        requires own { HasOwn beans.now types.now self.old }
        ensures part { IfOk result
            (λ part. part.value ≡ full_uses types.now (own_uses beans.now class.now)) }
        ensures own { OnOk result (HasOwn beans.now types.now self.new) }
    {
        if let Some(part) = self.parts.get(&class.name) {
            return Ok(part.clone()?);
        }
        let part = Rc::new(alloc, own_qualifiers(alloc, types, beans, class)?)?;
        self.parts.insert(class.name, part.clone()?)?;
        Ok(part)
    }

    /// The own qualifiers of each bean that a managed bean specializes.
    pub(crate) fn of_class<'a>(
        &mut self,
        alloc: Global,
        types: &QualifierTypes,
        beans: &BeanClasses<'a>,
        class: &'a Class,
    ) -> Result<Seq<Rc<Seq<Qualifier>>>, AllocError>
        requires acyclic { IsAcyclic (map of_class beans.now) }
        requires listed { Contains beans.now class.now }
        requires own { HasOwn beans.now types.now self.old }
        ensures are { IfOk result
            (λ found. AreSpecialized beans.now types.now class.now (qualifiers_in found)) }
        ensures own { OnOk result (HasOwn beans.now types.now self.new) }
    {
        let mut found = Seq::empty(alloc);
        let mut lowest = class;
        while let Some(specialized) = beans.specialized(lowest) {
            found.push(self.part(alloc, types, beans, specialized)?)?;
            lowest = specialized;
        }
        Ok(found)
    }
}
