//! Digests of the values of a qualifier's members. Qualifiers with other values may have the same.
ghost use Rattle.std.specs.Prelude.{◌≡◌, map, fold};
ghost use Rattle.cdi_quals.specs.Qualifiers as quals;
ghost use Rattle.cdi_resolve.specs.Digests as spec;

use crate::required::value_of;
use cdi_base::{MemberValue, Value};
use cdi_quals::{MemberType, QualifierMember};

/// A digest with a number more.
fn mixed(digest: u64, number: u64) -> u64
    ensures { result ≡ spec.mixed digest number }
{
    digest.wrapping_mul(1_099_511_628_211).wrapping_add(number)
}

/// A digest with the bytes of a text more.
fn with_text(digest: u64, text: &str) -> u64
    ensures { result ≡ fold spec.mixed digest text.now }
{
    let mut digest = digest;
    for byte in text.as_bytes() {
        digest = mixed(digest, u64::from(*byte));
    }
    digest
}

/// A digest with a value more.
fn with_value(digest: u64, value: &Value) -> u64
    ensures { result ≡ spec.with_value digest value.now }
{
    match value {
        Value::Null => mixed(digest, 0),
        Value::Int(number) => mixed(mixed(digest, 1), number.cast_unsigned()),
        Value::Text(text) => with_text(mixed(digest, 2), text.as_str()),
    }
}

/// A digest with the value of a member of a bean's qualifier more, if it counts.
fn with_own(counts: bool, value: &Value, digest: u64) -> u64
    ensures { result ≡ spec.with_own counts value.now digest }
{
    if counts {
        return with_value(digest, value);
    }
    digest
}

/// The digest of the values that count of the members of a bean's qualifier.
pub(crate) fn own_digest(flags: &[bool], members: &[QualifierMember]) -> u64
    ensures { result ≡ spec.with_all_own flags.now members.now 0 }
{
    let mut digest = 0;
    for i in 0..flags.len().min(members.len()) {
        digest = with_own(flags[i], &members[i].value, digest);
    }
    digest
}

/// A digest with the value of a required member, if it counts; there is none if it counts and is nonbinding.
fn with_required(counts: bool, is_binding: bool, value: &Value, digest: u64) -> Option<u64>
    ensures { result ≡ spec.with_required counts is_binding value.now digest }
{
    if !counts {
        return Some(digest);
    }
    if is_binding {
        return Some(with_value(digest, value));
    }
    None
}

/// The digest of the values that count of a required qualifier's members, if all of these are binding.
pub(crate) fn required_digest(flags: &[bool], members: &[QualifierMember]) -> Option<u64>
    ensures { result ≡ spec.with_all_required flags.now members.now 0 }
{
    let mut digest = 0;
    for i in 0..flags.len().min(members.len()) {
        let member = &members[i];
        digest = with_required(flags[i], member.is_binding, &member.value, digest)?;
    }
    Some(digest)
}

/// A digest with the value that a use gives to a member more, if it counts; there is none if it counts and is nonbinding.
fn with_given(counts: bool, member: &MemberType, given: &[MemberValue], digest: u64) -> Option<u64>
    ensures { result ≡ spec.with_required counts member.now.is_binding
        (quals.value_of given.now member.now.name) digest }
{
    let null = Value::Null;
    let value = value_of(given, member.name).unwrap_or(&null);
    with_required(counts, member.is_binding, value, digest)
}

/// The same digest for what a use of a type with these members requires.
pub(crate) fn written_digest(
    flags: &[bool],
    members: &[MemberType],
    given: &[MemberValue],
) -> Option<u64>
    ensures { result
        ≡ spec.with_all_required flags.now (map (quals.full_member given.now) members.now) 0 }
{
    let mut digest = 0;
    for i in 0..flags.len().min(members.len()) {
        digest = with_given(flags[i], &members[i], given, digest)?;
    }
    Some(digest)
}
