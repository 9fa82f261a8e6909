//! Required qualifiers: which of them a bean has that declares some (Jakarta CDI 4.0, *Typesafe resolution*). Uses are compared as
//! they were written, with the members of their types, so that nothing is allocated.
ghost use Rattle.std.specs.Prelude.{◌≡◌, unwrap_or, map};
ghost use Rattle.std.specs.Option.{option_copied};
ghost use Rattle.std.specs.Ordering.{is_eq};
ghost use Rattle.cdi_quals.specs.Order.{compare_values as order_of};
ghost use Rattle.cdi_quals.specs.Qualifiers as quals;
ghost use Rattle.cdi_bean_check.specs.Qualifiers as spec;

use cdi_base::{BuiltIn, MemberValue, Name, Use, Value};
use cdi_quals::order::compare_values;
use cdi_quals::{MemberType, QualifierTypes};

/// The value that a use gives to a member, if it gives one.
fn value_of(given: &[MemberValue], name: Name) -> Option<&Value>
    ensures { unwrap_or (option_copied result) Value.Null ≡ quals.value_of given.now name }
{
    for member in given {
        if member.name == name {
            return Some(&member.value);
        }
    }
    None
}

/// Whether two uses agree on a member.
fn agrees(member: &MemberType, given: &[MemberValue], other: &[MemberValue]) -> bool
    ensures { result ≡ quals.agrees
        (quals.full_member given.now member.now) (quals.full_member other.now member.now) }
{
    let null = Value::Null;
    let value = value_of(given, member.name).unwrap_or(&null);
    let other = value_of(other, member.name).unwrap_or(&null);
    !member.is_binding || compare_values(value, other).is_eq()
}

/// Whether two uses of a type with these members agree on all of them.
fn agree(members: &[MemberType], given: &[MemberValue], other: &[MemberValue]) -> bool
    ensures { result ≡ quals.agree
        (map (quals.full_member given.now) members.now) (map (quals.full_member other.now) members.now) }
{
    for member in members {
        if !agrees(member, given, other) {
            return false;
        }
    }
    true
}

/// Whether uses have one of a type with these members.
fn have_use(types: &QualifierTypes, uses: &[Use], name: Name, given: &[MemberValue]) -> bool
    ensures { result ≡ quals.has (spec.full_uses types.now uses.now)
        (quals.full_use types.now (record { name = name; members = given.now })) }
{
    let members = types.members_of(name);
    for own in uses {
        if name == own.name && agree(members, given, own.members.as_slice()) {
            return true;
        }
    }
    false
}

/// Whether a use is that of a built-in qualifier without members.
fn is_plain(types: &QualifierTypes, name: Name, given: &[MemberValue], plain: BuiltIn) -> bool
    ensures { result ≡ quals.same_binding
        (quals.full_use types.now (record { name = name; members = given.now }))
        (quals.full_use types.now (spec.plain_use plain)) }
{
    name == plain.name() && agree(types.members_of(name), given, &[])
}

/// Whether no use is of another qualifier than `Named` and `Any`.
fn names_no_other(uses: &[Use]) -> bool
    ensures { result ≡ spec.names_no_other uses.now }
{
    uses.iter().all(|own| own.name == BuiltIn::Named.name() || own.name == BuiltIn::Any.name())
}

/// Whether a bean that declares these qualifiers, and specializes none, has one of a type with these members.
fn has_one(types: &QualifierTypes, declared: &[Use], name: Name, given: &[MemberValue]) -> bool
    ensures { result ≡ quals.has (spec.full_uses types.now (spec.uses_with_built_in declared.now))
        (quals.full_use types.now (record { name = name; members = given.now })) }
{
    have_use(types, declared, name, given)
        || is_plain(types, name, given, BuiltIn::Any)
        || (names_no_other(declared) && is_plain(types, name, given, BuiltIn::Default))
}

/// Whether a bean that declares these qualifiers, and specializes none, has another.
fn has_written(types: &QualifierTypes, declared: &[Use], other: &Use) -> bool
    ensures { result ≡ quals.has (spec.full_uses types.now (spec.uses_with_built_in declared.now))
        (quals.full_use types.now other.now) }
{
    has_one(types, declared, other.name, other.members.as_slice())
}

/// Whether a bean that declares these qualifiers, and specializes none, has all of others.
fn has_each(types: &QualifierTypes, declared: &[Use], others: &[Use]) -> bool
    ensures { result ≡ quals.has_all
        (spec.full_uses types.now (spec.uses_with_built_in declared.now))
        (spec.full_uses types.now others.now) }
{
    for other in others {
        if !has_written(types, declared, other) {
            return false;
        }
    }
    true
}

/// Whether a bean that declares these qualifiers, and specializes none, has all those that are required; where none is written,
/// that is `Default` (Jakarta CDI 4.0, *Built-in qualifier types*).
pub fn has_required(types: &QualifierTypes, declared: &[Use], required: &[Use]) -> bool
    ensures { result ≡ quals.has_all
        (spec.full_uses types.now (spec.uses_with_built_in declared.now))
        (spec.full_uses types.now (spec.required_uses required.now)) }
{
    match required {
        [] => has_one(types, declared, BuiltIn::Default.name(), &[]),
        _ => has_each(types, declared, required),
    }
}
