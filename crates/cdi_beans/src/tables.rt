//! What a bean list is made from.
ghost use Rattle.std.specs.Prelude.{◌≡◌, Contains, option_map, IfOk, OnOk};
ghost use Rattle.cdi_types.specs.ListsThose.{ListsThose};
ghost use Rattle.cdi_types.specs.Declarations.{declarations_of};
ghost use Rattle.cdi_types.specs.Subtype.{all_types};
ghost use Rattle.cdi_bean_check.specs.BeanTypes.{IsBeanType};
ghost use Rattle.cdi_bean_check.specs.Inherited.{AreMembersOf};
ghost use Rattle.cdi_bean_check.specs.Qualifiers.{IsSetOf, full_uses, specialized_bean, uses_with_built_in};
ghost use Rattle.cdi_beans.specs.ManagedQualifiers.{AreManaged};
ghost use Rattle.cdi_beans.specs.ObserverMembers.{AreObserverMembersOf};
ghost use Rattle.cdi_beans.specs.SpecializedParts.{HasOwn};

use crate::qualifiers::BeanQualifiers;
use crate::specialized_parts::SpecializedParts;
use crate::types::bean_types;
use crate::uses::{managed_qualifiers, with_built_in};
use cdi_base::{Name, Seq, Use};
use cdi_bean_check::BeanClasses;
use cdi_bean_rules::RuleTables;
use cdi_deployment::{Class, Deployment, Member};
use cdi_quals::{QualSet, QualifierTypes};
use cdi_types::{ClassIndex, ClassPart, MemberKind, TypeTable};
use std::alloc::{AllocError, Global};

/// A deployment with the tables of its types, its qualifiers and its classes.
#[derive(Clone, Copy)]
pub(crate) struct Tables<'a> {
    pub(crate) deployment: &'a Deployment,
    pub(crate) types: &'a TypeTable,
    pub(crate) qualifiers: &'a QualifierTypes,
    pub(crate) classes: &'a ClassIndex<'a>,
    pub(crate) beans: &'a BeanClasses<'a>,
    ghost types_are: { types.now ≡ declarations_of deployment.now },
    ghost classes_are: { classes.now ≡ deployment.now.classes },
    ghost beans_are: { beans.now ≡ deployment.now.classes },
}

impl<'a> Tables<'a> {
    /// The same tables as the rules of beans look at.
    pub(crate) fn of(tables: &RuleTables<'a>) -> Tables<'a>
        ensures deployment { result.deployment.now ≡ tables.now.deployment.now }
        ensures qualifiers { result.qualifiers.now ≡ tables.now.qualifiers.now }
    {
        Tables {
            deployment: tables.deployment,
            types: tables.types,
            qualifiers: tables.qualifiers,
            classes: tables.classes,
            beans: tables.beans,
        }
    }

    /// The bean types of what has this type and is restricted so.
    pub(crate) fn types_of(
        &self,
        alloc: Global,
        of: Name,
        typed: &Option<Seq<Name>>,
    ) -> Result<Seq<Name>, AllocError>
        ensures { IfOk result (λ found.
            ListsThose (IsBeanType (declarations_of self.now.deployment.now) of typed.now)
            (all_types (declarations_of self.now.deployment.now)) found) }
    {
        bean_types(alloc, self.types, of, typed)
    }

    /// The set of these uses.
    pub(crate) fn set_of(&self, alloc: Global, uses: &[Use]) -> Result<QualSet, AllocError>
        ensures { IfOk result (λ set.
            IsSetOf self.now.deployment.now.names self.now.qualifiers.now uses.now set) }
    {
        QualSet::new(alloc, &self.deployment.names, self.qualifiers, uses)
    }

    /// The qualifiers of the bean of a class, of which the parts may have some.
    pub(crate) fn managed_qualifiers(
        &self,
        alloc: Global,
        parts: &mut SpecializedParts,
        class: &'a Class,
    ) -> Result<BeanQualifiers, AllocError>
        requires listed { Contains self.now.deployment.now.classes class.now }
        requires own { HasOwn self.now.deployment.now.classes self.now.qualifiers.now parts.old }
        ensures are { IfOk result
            (AreManaged self.now.deployment.now.classes self.now.qualifiers.now class.now) }
        ensures own { OnOk result
            (HasOwn self.now.deployment.now.classes self.now.qualifiers.now parts.new) }
    {
        self.types.law_sound();
        managed_qualifiers(alloc, self.qualifiers, self.beans, parts, class)
    }

    /// The qualifiers of a product that declares these.
    pub(crate) fn product_qualifiers(
        &self,
        alloc: Global,
        declared: &[Use],
    ) -> Result<BeanQualifiers, AllocError>
        ensures { IfOk result (λ q.
            q ≡ full_uses self.now.qualifiers.now (uses_with_built_in declared.now)) }
    {
        let own = with_built_in(alloc, self.qualifiers, declared)?;
        Ok(BeanQualifiers::new(alloc, own))
    }

    /// The class of the bean that a class directly specializes, if it does.
    pub(crate) fn specialized(&self, class: &Class) -> Option<Name>
        ensures { result ≡ option_map (λ s. s.name)
            (specialized_bean self.now.deployment.now.classes class.now) }
    {
        match self.beans.specialized(class) {
            Some(specialized) => Some(specialized.name),
            None => None,
        }
    }

    /// The members that a class has, each with the class that declares it.
    pub(crate) fn members_of(
        &self,
        alloc: Global,
        class: &Class,
    ) -> Result<Seq<ClassPart<'a, Member>>, AllocError>
        ensures { IfOk result (λ has. AreMembersOf self.now.deployment.now.classes
            (declarations_of self.now.deployment.now) class.now has) }
    {
        let line = self.classes.line(alloc, self.types, class.name)?;
        line.members(alloc)
    }

    /// The observers that a class has, each with the class that declares it.
    pub(crate) fn observers_of(
        &self,
        alloc: Global,
        class: &Class,
    ) -> Result<Seq<ClassPart<'a, Member>>, AllocError>
        ensures { IfOk result (AreObserverMembersOf self.now.deployment.now class.now) }
    {
        let line = self.classes.line(alloc, self.types, class.name)?;
        let observers = line.members_of_kind(alloc, MemberKind::Observer)?;
        Ok(observers)
    }
}
