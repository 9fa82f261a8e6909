//! Which members of qualifiers are binding.
ghost use Rattle.std.specs.Prelude.{◌≡◌, ℕ, IfOk, OnOk, map};
ghost use Rattle.std.specs.Option.{option_or};
ghost use Rattle.cdi_beans.specs.ManagedQualifiers.{qualifiers_in};
ghost use Rattle.cdi_quals.specs.Qualifiers.{full_member};
ghost use Rattle.cdi_resolve.specs.BeanKeys as keys;
ghost use Rattle.cdi_resolve.specs.BindingFlags as spec;
ghost use Rattle.cdi_resolve.specs.Filters.{enabled_beans};

use crate::bean_key::BeanKey;
use crate::bean_rows::has_flag;
use crate::digest::{own_digest, required_digest, written_digest};
use cdi_base::{MemberValue, Name, Seq};
use cdi_beans::{Bean, BeanQualifiers};
use cdi_quals::{MemberType, Qualifier, QualifierMember};
use std::alloc::{AllocError, Global};
use std::collections::HashMap;
use std::rc::Rc;

/// By the name of a qualifier type, which members of the first of its qualifiers are binding. These count in the keys of all of them.
#[derive(Drop)]
pub(crate) struct BindingFlags {
    rows: HashMap<Name, Seq<bool>>,
}

/// Which of these members are binding.
fn flags_of(alloc: Global, members: &[QualifierMember]) -> Result<Seq<bool>, AllocError>
    ensures { IfOk result (λ flags. flags ≡ map (λ m. m.is_binding) members.now) }
{
    let mut flags = Seq::empty(alloc);
    for member in members {
        flags.push(member.is_binding)?;
    }
    Ok(flags)
}

impl BindingFlags {
    /// Adds a qualifier, unless one of its type is there.
    fn add(&mut self, alloc: Global, qualifier: &Qualifier) -> Result<(), AllocError>
        ensures { OnOk result ((name : ℕ) → spec.flags_at self.new name
            ≡ option_or (spec.flags_at self.old name) (spec.flags_if name qualifier.now)) }
    {
        if self.rows.contains_key(&qualifier.name) {
            return Ok(());
        }
        let flags = flags_of(alloc, qualifier.members.as_slice())?;
        self.rows.insert(qualifier.name, flags)?;
        Ok(())
    }

    /// Adds qualifiers.
    fn add_all(&mut self, alloc: Global, qualifiers: &[Qualifier]) -> Result<(), AllocError>
        ensures { OnOk result (spec.AreAdded qualifiers.now self.old self.new) }
    {
        for qualifier in qualifiers {
            self.add(alloc, qualifier)?;
        }
        Ok(())
    }

    /// Adds the qualifiers in some parts.
    fn add_parts(&mut self, alloc: Global, parts: &[Rc<Seq<Qualifier>>]) -> Result<(), AllocError>
        ensures { OnOk result (spec.AreAdded (qualifiers_in parts.now) self.old self.new) }
    {
        for part in parts {
            self.add_all(alloc, part.as_slice())?;
        }
        Ok(())
    }

    /// Adds the qualifiers of a bean.
    fn add_bean(&mut self, alloc: Global, qualifiers: &BeanQualifiers) -> Result<(), AllocError>
        ensures { OnOk result (spec.AreAdded qualifiers.now self.old self.new) }
    {
        let parts = qualifiers.parts();
        self.add_all(alloc, parts.own)?;
        self.add_parts(alloc, parts.specialized)?;
        Ok(())
    }

    /// Those of the qualifiers that the enabled ones of some beans have.
    pub(crate) fn build(
        alloc: Global,
        beans: &[Bean],
        enabled: &[bool],
    ) -> Result<BindingFlags, AllocError>
        ensures { IfOk result (λ flags. (name : ℕ) → spec.flags_at flags name
            ≡ spec.first_flags name (spec.qualifiers_of (enabled_beans beans.now enabled.now))) }
    {
        let mut flags = BindingFlags {
            rows: HashMap::new(alloc),
        };
        for (place, bean) in beans.iter().enumerate() {
            if has_flag(enabled, place) {
                flags.add_bean(alloc, &bean.qualifiers)?;
            }
        }
        Ok(flags)
    }

    /// Which members count of a qualifier of a type.
    fn of(&self, name: Name) -> &[bool]
        ensures { result.now ≡ spec.flags_of self.now name }
    {
        match self.rows.get(&name) {
            Some(flags) => flags.as_slice(),
            None => &[],
        }
    }

    /// The key of a bean's qualifier.
    pub(crate) fn own_key(&self, qualifier: &Qualifier) -> BeanKey
        ensures { result ≡ keys.own_key self.now qualifier.now }
    {
        BeanKey::Qualifier {
            name: qualifier.name,
            digest: own_digest(self.of(qualifier.name), qualifier.members.as_slice()),
        }
    }

    /// The key that the qualifiers have that are what a required one requires, if all its members that count are binding.
    pub(crate) fn required_key(&self, required: &Qualifier) -> Option<BeanKey>
        ensures { result ≡ keys.required_key self.now required.now }
    {
        let digest = required_digest(self.of(required.name), required.members.as_slice())?;
        Some(BeanKey::Qualifier {
            name: required.name,
            digest,
        })
    }

    /// The same for what a use of a type with these members requires.
    pub(crate) fn written_key(
        &self,
        name: Name,
        members: &[MemberType],
        given: &[MemberValue],
    ) -> Option<BeanKey>
        ensures { result ≡ keys.required_key self.now
            (record { name = name; members = map (full_member given.now) members.now }) }
    {
        let digest = written_digest(self.of(name), members, given)?;
        Some(BeanKey::Qualifier { name, digest })
    }
}
