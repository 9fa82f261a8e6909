//! Which beans a question looks at.
ghost use Rattle.std.specs.Prelude.{◌≡◌, IfOk};
ghost use Rattle.cdi_bean_check.specs.Qualifiers.{full_uses};
ghost use Rattle.cdi_resolve.specs.BeanIndex as spec;
ghost use Rattle.cdi_resolve.specs.BeanRows.{row_of};
ghost use Rattle.cdi_resolve.specs.Filters as filters;
ghost use Rattle.cdi_resolve.specs.WrittenUses.{use_with};

use crate::bean_key::BeanKey;
use crate::bean_rows::BeanRows;
use crate::binding_flags::BindingFlags;
use crate::required::Required;
use crate::written_uses::WrittenUses;
use cdi_base::{Name, Use};
use cdi_beans::Bean;
use cdi_quals::{MemberType, QualSet, Qualifier, QualifierTypes};
use std::alloc::{AllocError, Global};

/// The enabled beans by their types and qualifiers.
#[derive(Drop)]
pub(crate) struct BeanIndex {
    flags: BindingFlags,
    rows: BeanRows,
}

/// The type that the beans with a key have to be asked for, since they aren't known to have it.
pub(crate) fn asked_type(ty: Name, key: &BeanKey) -> Option<Name>
    ensures { result ≡ spec.asked_type ty key.now }
{
    match key {
        BeanKey::Type(_) => None,
        BeanKey::Qualifier { .. } => Some(ty),
    }
}

impl BeanIndex {
    /// The index of the enabled ones of some beans.
    pub(crate) fn build(
        alloc: Global,
        beans: &[Bean],
        enabled: &[bool],
    ) -> Result<BeanIndex, AllocError>
        ensures { IfOk result (spec.IsIndexOf beans.now enabled.now) }
    {
        let flags = BindingFlags::build(alloc, beans, enabled)?;
        let rows = BeanRows::build(alloc, &flags, beans, enabled)?;
        Ok(BeanIndex { flags, rows })
    }

    /// The enabled beans that have a key, by their indices.
    pub(crate) fn row(&self, key: &BeanKey) -> &[usize]
        ensures { result.now ≡ row_of self.now.rows key.now }
    {
        self.rows.row(key)
    }

    /// The one of two keys that fewer beans have.
    fn rarer(&self, key: BeanKey, other: Option<BeanKey>) -> BeanKey
        ensures { result ≡ spec.rarer self.now.rows key other }
    {
        let Some(other) = other else {
            return key;
        };
        if self.row(&other).len() < self.row(&key).len() {
            return other;
        }
        key
    }

    /// The key of a required qualifier, if fewer beans have it.
    fn with(&self, key: BeanKey, required: &Qualifier) -> BeanKey
        ensures { result ≡ spec.with_required self.now key required.now }
    {
        self.rarer(key, self.flags.required_key(required))
    }

    /// The same for what a use of a type with these members requires.
    fn with_use(&self, key: BeanKey, members: &[MemberType], written: &Use) -> BeanKey
        ensures { result
            ≡ spec.with_required self.now key (use_with members.now written.now) }
    {
        let given = written.members.as_slice();
        self.rarer(key, self.flags.written_key(written.name, members, given))
    }

    /// The one of a key and those of required qualifiers that the fewest beans have.
    fn with_all(&self, key: BeanKey, required: &[Qualifier]) -> BeanKey
        ensures { result ≡ spec.with_all self.now key required.now }
    {
        let mut rarest = key;
        for qualifier in required {
            rarest = self.with(rarest, qualifier);
        }
        rarest
    }

    /// The same for what uses of these types require.
    fn with_uses(&self, key: BeanKey, types: &QualifierTypes, uses: &[Use]) -> BeanKey
        ensures { result ≡ spec.with_all self.now key (full_uses types.now uses.now) }
    {
        let mut rarest = key;
        for written in uses {
            rarest = self.with_use(rarest, types.members_of(written.name), written);
        }
        rarest
    }

    /// The same for a set; an empty one requires `Default`.
    fn with_set(&self, key: BeanKey, set: &QualSet, default: &Qualifier) -> BeanKey
        requires { default.now ≡ filters.default }
        ensures { result ≡ spec.with_all self.now key (filters.required set.now) }
    {
        if set.as_slice().is_empty() {
            return self.with(key, default);
        }
        self.with_all(key, set.as_slice())
    }

    /// The same for what is required as it was written; if nothing is written, that is `Default`.
    fn with_written(&self, key: BeanKey, written: &WrittenUses<'_>, default: &Qualifier) -> BeanKey
        requires { default.now ≡ filters.default }
        ensures { result ≡ spec.with_all self.now key
            (filters.required (full_uses written.now.types.now written.now.uses.now)) }
    {
        if written.uses.is_empty() {
            return self.with(key, default);
        }
        self.with_uses(key, written.types, written.uses)
    }

    /// Of the keys that all beans have that have a type and required qualifiers, one that the fewest beans have.
    pub(crate) fn key_of(&self, ty: Name, required: &Required<'_>, default: &Qualifier) -> BeanKey
        requires { default.now ≡ filters.default }
        ensures { result
            ≡ spec.rarest self.now ty (filters.required (filters.required_of required.now)) }
    {
        match required {
            Required::Set(set) => self.with_set(BeanKey::Type(ty), set, default),
            Required::Written(written) => self.with_written(BeanKey::Type(ty), written, default),
        }
    }
}
