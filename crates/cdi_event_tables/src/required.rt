//! Whether the qualifiers of an event, as they were written, are what an observer requires.
ghost use Rattle.std.specs.Prelude.{◌≡◌, ◌∷◌, unwrap_or, map};
ghost use Rattle.std.specs.Option.{option_copied};
ghost use Rattle.cdi_bean_check.specs.Qualifiers.{full_uses};
ghost use Rattle.cdi_quals.specs.Qualifiers as quals;
ghost use Rattle.cdi_event_tables.specs.Events.{any_qualifier};

use cdi_base::{BuiltIn, MemberValue, Name, Use, Value};
use cdi_quals::order::compare_values;
use cdi_quals::{MemberType, QualSet, Qualifier, QualifierMember, QualifierTypes};

/// The value that a use gives to a member, if it gives one.
fn value_of(given: &[MemberValue], name: Name) -> Option<&Value>
    ensures { unwrap_or (option_copied result) Value.Null ≡ quals.value_of given.now name }
{
    for member in given {
        if member.name == name {
            return Some(&member.value);
        }
    }
    None
}

/// Whether a member of a required qualifier agrees with what a use gives.
fn agrees(required: &QualifierMember, member: &MemberType, given: &[MemberValue]) -> bool
    ensures { result ≡ quals.agrees required.now (quals.full_member given.now member.now) }
{
    let null = Value::Null;
    let value = value_of(given, member.name).unwrap_or(&null);
    !required.is_binding || compare_values(&required.value, value).is_eq()
}

/// Whether all members of a required qualifier agree with what a use of a type with these members gives.
fn agree(required: &[QualifierMember], members: &[MemberType], given: &[MemberValue]) -> bool
    ensures { result ≡ quals.agree required.now (map (quals.full_member given.now) members.now) }
{
    if members.len() != required.len() {
        return false;
    }
    for i in 0..members.len() {
        if !agrees(&required[i], &members[i], given) {
            return false;
        }
    }
    true
}

/// Whether a use is what a qualifier requires.
fn meets(required: &Qualifier, types: &QualifierTypes, written: &Use) -> bool
    ensures { result
        ≡ quals.same_binding required.now (quals.full_use types.now written.now) }
{
    required.name == written.name
        && agree(
            required.members.as_slice(),
            types.members_of(written.name),
            written.members.as_slice(),
        )
}

/// Whether a required qualifier is `Any`, which every event has.
fn is_any(required: &Qualifier) -> bool
    ensures { result ≡ quals.same_binding required.now any_qualifier }
{
    required.name == BuiltIn::Any.name() && required.members.is_empty()
}

/// Whether an event with these qualifiers has a required one.
fn has(types: &QualifierTypes, uses: &[Use], required: &Qualifier) -> bool
    ensures { result ≡ quals.has (any_qualifier ∷ full_uses types.now uses.now) required.now }
{
    if is_any(required) {
        return true;
    }
    for written in uses {
        if meets(required, types, written) {
            return true;
        }
    }
    false
}

/// Whether an event with these qualifiers has each required one.
pub(crate) fn has_all(types: &QualifierTypes, uses: &[Use], required: &QualSet) -> bool
    ensures { result
        ≡ quals.has_all (any_qualifier ∷ full_uses types.now uses.now) required.now }
{
    required
        .as_slice()
        .iter()
        .all(|qualifier| has(types, uses, qualifier))
}
