//! A use of a qualifier or an interceptor binding with all its members.
ghost use Rattle.std.specs.Prelude.{◌≡◌, IfOk, map};
ghost use Rattle.cdi_quals.specs.Qualifiers as spec;

use crate::order::compare_values;
use crate::types::{MemberType, QualifierTypes};
use cdi_base::{MemberValue, Name, Seq, Use, Value};
use std::alloc::{AllocError, Global};

/// The value of a member in a use.
#[derive(Debug, PartialEq, Eq, Drop)]
pub struct QualifierMember {
    pub name: Name,
    /// Null where the use doesn't give it.
    pub value: Value,
    /// Whether it counts where two uses are compared (Jakarta CDI 4.0, *Qualifier annotations with members*).
    pub is_binding: bool,
}

/// A use of a qualifier or an interceptor binding, with all the members of its type.
#[derive(Debug, PartialEq, Eq, Drop)]
pub struct Qualifier {
    pub name: Name,
    /// Its members in the order of their names' texts, each once.
    pub members: Seq<QualifierMember>,
}

/// The value that a use gives to a member, or null.
fn value_of(members: &[MemberValue], name: Name) -> Result<Value, AllocError>
    ensures { IfOk result (λ value. value ≡ spec.value_of members.now name) }
{
    for member in members {
        if member.name == name {
            return member.value.clone();
        }
    }
    Ok(Value::Null)
}

/// The members of a use, in the order of its type.
fn members_of(
    alloc: Global,
    members: &[MemberType],
    given: &[MemberValue],
) -> Result<Seq<QualifierMember>, AllocError>
    ensures { IfOk result (λ full. full ≡ map (spec.full_member given.now) members.now) }
{
    let mut full = Seq::empty(alloc);
    for member in members {
        full.push(QualifierMember {
            name: member.name,
            value: value_of(given, member.name)?,
            is_binding: member.is_binding,
        })?;
    }
    Ok(full)
}

/// Whether two lists of members, each in the order of one type, have equal values of all members that aren't nonbinding.
fn agree(a: &[QualifierMember], b: &[QualifierMember]) -> bool
    ensures { result ≡ spec.agree a.now b.now }
{
    if a.len() != b.len() {
        return false;
    }
    for i in 0..a.len() {
        if a[i].is_binding && compare_values(&a[i].value, &b[i].value).is_ne() {
            return false;
        }
    }
    true
}

impl Qualifier {
    /// A use with all the members of its type: those that it doesn't give are null, and others that it gives are left out. A type
    /// that isn't known has no members.
    pub fn new(
        alloc: Global,
        types: &QualifierTypes,
        written: &Use,
    ) -> Result<Qualifier, AllocError>
        ensures { IfOk result (λ full. full ≡ spec.full_use types.now written.now) }
    {
        Ok(Qualifier {
            name: written.name,
            members: members_of(
                alloc,
                types.members_of(written.name),
                written.members.as_slice(),
            )?,
        })
    }

    /// Whether two uses are of one type, with equal values of all members that aren't nonbinding (Jakarta CDI 4.0, *Typesafe
    /// resolution*; Jakarta Interceptors 2.1, *Interceptor Resolution*).
    pub fn same_binding(&self, other: &Qualifier) -> bool
        ensures { result ≡ spec.same_binding self.now other.now }
    {
        self.name == other.name && agree(self.members.as_slice(), other.members.as_slice())
    }
}

impl Clone for QualifierMember {
    ghost is_clone = { λ m copy. copy ≡ m };

    fn clone(&self) -> Result<QualifierMember, AllocError> {
        Ok(QualifierMember {
            name: self.name,
            value: self.value.clone()?,
            is_binding: self.is_binding,
        })
    }
}

impl Clone for Qualifier {
    ghost is_clone = { λ q copy. copy ≡ q };

    #[tactic(auto, using(cdi_base::proofs::Clones::same_items))]
    fn clone(&self) -> Result<Qualifier, AllocError> {
        Ok(Qualifier {
            name: self.name,
            members: self.members.clone()?,
        })
    }
}
