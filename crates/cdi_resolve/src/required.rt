//! Required qualifiers, and whether a bean has them.
ghost use Rattle.std.specs.Prelude.{◌≡◌, unwrap_or, map};
ghost use Rattle.std.specs.List.{list_any};
ghost use Rattle.std.specs.Option.{option_copied};
ghost use Rattle.cdi_quals.specs.Qualifiers as quals;
ghost use Rattle.cdi_bean_check.specs.Qualifiers.{full_uses};
ghost use Rattle.cdi_resolve.specs.Filters as spec;
ghost use Rattle.cdi_resolve.specs.WrittenUses.{use_with};

use crate::written_uses::WrittenUses;
use cdi_base::{MemberValue, Name, Seq, Use, Value};
use cdi_beans::BeanQualifiers;
use cdi_quals::order::compare_values;
use cdi_quals::{MemberType, QualSet, Qualifier, QualifierMember, QualifierTypes};
use std::rc::Rc;

/// Required qualifiers, as they are given.
#[derive(Clone, Copy)]
pub(crate) enum Required<'a> {
    Set(&'a QualSet),
    Written(WrittenUses<'a>),
}

/// The value that a use gives to a member, if it gives one.
pub(crate) fn value_of(given: &[MemberValue], name: Name) -> Option<&Value>
    ensures { unwrap_or (option_copied result) Value.Null ≡ quals.value_of given.now name }
{
    for member in given {
        if member.name == name {
            return Some(&member.value);
        }
    }
    None
}

/// Whether what a use gives agrees with a member that a bean has.
fn agrees(member: &MemberType, given: &[MemberValue], own: &QualifierMember) -> bool
    ensures { result ≡ quals.agrees (quals.full_member given.now member.now) own.now }
{
    let null = Value::Null;
    let value = value_of(given, member.name).unwrap_or(&null);
    !member.is_binding || compare_values(value, &own.value).is_eq()
}

/// Whether what a use of a type with these members gives agrees with all members that a bean has.
fn agree(members: &[MemberType], given: &[MemberValue], own: &[QualifierMember]) -> bool
    ensures { result ≡ quals.agree (map (quals.full_member given.now) members.now) own.now }
{
    if members.len() != own.len() {
        return false;
    }
    for i in 0..members.len() {
        if !agrees(&members[i], given, &own[i]) {
            return false;
        }
    }
    true
}

/// Whether a qualifier is what a use of a type with these members requires.
fn meets(own: &Qualifier, name: Name, members: &[MemberType], given: &[MemberValue]) -> bool
    ensures { result ≡ quals.same_binding
        (record { name = name; members = map (quals.full_member given.now) members.now }) own.now }
{
    name == own.name && agree(members, given, own.members.as_slice())
}

/// Whether one of some qualifiers is what a use of a type with these members requires.
fn has_use(qualifiers: &[Qualifier], members: &[MemberType], written: &Use) -> bool
    ensures { result ≡ quals.has qualifiers.now (use_with members.now written.now) }
{
    let given = written.members.as_slice();
    for own in qualifiers {
        if meets(own, written.name, members, given) {
            return true;
        }
    }
    false
}

/// Whether one of the qualifiers in some parts is what a use of a type with these members requires.
fn has_use_in(parts: &[Rc<Seq<Qualifier>>], members: &[MemberType], written: &Use) -> bool
    ensures { result ≡ list_any
        (λ part. quals.has part.value (use_with members.now written.now)) parts.now }
{
    parts
        .iter()
        .any(|part| has_use(part.as_slice(), members, written))
}

/// Whether a bean has what a use of a type with these members requires.
#[tactic(auto, using(cdi_beans::proofs::InParts::any_of))]
fn bean_has_use(own: &BeanQualifiers, members: &[MemberType], written: &Use) -> bool
    ensures { result ≡ quals.has own.now (use_with members.now written.now) }
{
    let parts = own.parts();
    has_use(parts.own, members, written) || has_use_in(parts.specialized, members, written)
}

/// Whether a bean has a qualifier that is given as it was written.
fn bean_has_written(own: &BeanQualifiers, types: &QualifierTypes, written: &Use) -> bool
    ensures { result ≡ quals.has own.now (quals.full_use types.now written.now) }
{
    bean_has_use(own, types.members_of(written.name), written)
}

/// Whether a bean has each of the qualifiers that are given as they were written.
fn has_each_written(own: &BeanQualifiers, types: &QualifierTypes, uses: &[Use]) -> bool
    ensures { result ≡ quals.has_all own.now (full_uses types.now uses.now) }
{
    for written in uses {
        if !bean_has_written(own, types, written) {
            return false;
        }
    }
    true
}

/// Whether a bean has what a set requires; an empty one requires `Default`.
fn has_set(own: &BeanQualifiers, set: &QualSet, default: &Qualifier) -> bool
    requires { default.now ≡ spec.default }
    ensures { result ≡ quals.has_all own.now (spec.required set.now) }
{
    if set.as_slice().is_empty() {
        return own.has(default);
    }
    own.has_all(set)
}

/// Whether a bean has what is required as it was written; if nothing is written, that is `Default`.
fn has_uses(own: &BeanQualifiers, written: &WrittenUses<'_>, default: &Qualifier) -> bool
    requires { default.now ≡ spec.default }
    ensures { result ≡ quals.has_all own.now
        (spec.required (full_uses written.now.types.now written.now.uses.now)) }
{
    match written.uses {
        [] => own.has(default),
        [first, others @ ..] => {
            bean_has_use(own, written.first, first) && has_each_written(own, written.types, others)
        }
    }
}

impl Required<'_> {
    /// Whether a bean with these qualifiers has each required one; if none is required, `Default` is.
    pub(crate) fn is_had_by(&self, own: &BeanQualifiers, default: &Qualifier) -> bool
        requires { default.now ≡ spec.default }
        ensures { result ≡ quals.has_all own.now (spec.required (spec.required_of self.now)) }
    {
        match self {
            Required::Set(set) => has_set(own, set, default),
            Required::Written(written) => has_uses(own, written, default),
        }
    }
}
