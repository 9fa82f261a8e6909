//! What was asked, with what was told.
ghost use Rattle.std.specs.Prelude.{◌≡◌, true, IfOk};

use crate::value::{hash_value, is_same_value};
use cdi_base::Name;
use cdi_quals::{QualSet, Qualifier, QualifierMember};
use cdi_resolve::Resolution;
use std::alloc::AllocError;
use std::hash::{BuildHasher, BuildHasherDefault, FoldHasher, Hash, Hasher};

/// A type and qualifiers, with what they resolve to.
#[derive(Drop)]
pub struct Answer {
    pub ty: Name,
    pub qualifiers: QualSet,
    pub told: Resolution,
}

fn is_same_member(a: &QualifierMember, b: &QualifierMember) -> bool
    ensures { result ≡ true → a.now ≡ b.now }
{
    if a.is_binding != b.is_binding {
        return false;
    }
    a.name == b.name && is_same_value(&a.value, &b.value)
}

fn are_same_members(a: &[QualifierMember], b: &[QualifierMember]) -> bool
    ensures { result ≡ true → a.now ≡ b.now }
{
    if a.len() != b.len() {
        return false;
    }
    for i in 0..a.len() {
        if !is_same_member(&a[i], &b[i]) {
            return false;
        }
    }
    true
}

fn is_same_qualifier(a: &Qualifier, b: &Qualifier) -> bool
    ensures { result ≡ true → a.now ≡ b.now }
{
    a.name == b.name && are_same_members(a.members.as_slice(), b.members.as_slice())
}

fn are_same_qualifiers(a: &[Qualifier], b: &[Qualifier]) -> bool
    ensures { result ≡ true → a.now ≡ b.now }
{
    if a.len() != b.len() {
        return false;
    }
    for i in 0..a.len() {
        if !is_same_qualifier(&a[i], &b[i]) {
            return false;
        }
    }
    true
}

impl Answer {
    /// An answer with a copy of the qualifiers.
    pub(crate) fn new(
        ty: Name,
        qualifiers: &QualSet,
        told: Resolution,
    ) -> Result<Answer, AllocError>
        ensures { IfOk result (λ answer.
            answer ≡ record { ty = ty; qualifiers = qualifiers.now; told = told }) }
    {
        Ok(Answer {
            ty,
            qualifiers: qualifiers.clone()?,
            told,
        })
    }

    /// Whether this is what was asked, nonbinding members too.
    pub(crate) fn is_of(&self, ty: Name, qualifiers: &QualSet) -> bool
        ensures ty { result ≡ true → self.now.ty ≡ ty }
        ensures qualifiers { result ≡ true → self.now.qualifiers ≡ qualifiers.now }
    {
        self.ty == ty && are_same_qualifiers(self.qualifiers.as_slice(), qualifiers.as_slice())
    }
}

fn hash_qualifier<H: Hasher>(qualifier: &Qualifier, state: &mut H) {
    qualifier.name.hash(state);
    for member in qualifier.members.as_slice() {
        hash_value(&member.value, state);
    }
}

/// A hash of a type and qualifiers. Others may have the same.
pub(crate) fn hash_of(ty: Name, qualifiers: &QualSet) -> u64 {
    let mut state: FoldHasher = BuildHasherDefault::new().build_hasher();
    ty.hash(&mut state);
    for qualifier in qualifiers.as_slice() {
        hash_qualifier(qualifier, &mut state);
    }
    state.finish()
}
