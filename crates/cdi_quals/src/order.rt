//! The order of qualifiers in a set, which is that in which lines write them.
ghost use Rattle.std.specs.Prelude.{◌≡◌, option_map};
ghost use Rattle.cdi_quals.specs.Order as spec;

use crate::qualifier::{Qualifier, QualifierMember};
use cdi_base::{Name, Names, Value};
use std::cmp::Ordering;

/// The order of values: null, whole numbers, texts by their bytes.
pub fn compare_values(a: &Value, b: &Value) -> Ordering
    ensures { result ≡ spec.compare_values a.now b.now }
{
    match a {
        Value::Null => match b {
            Value::Null => Ordering::Equal,
            _ => Ordering::Less,
        },
        Value::Int(m) => match b {
            Value::Null => Ordering::Greater,
            Value::Int(n) => m.cmp(n),
            Value::Text(_) => Ordering::Less,
        },
        Value::Text(s) => match b {
            Value::Text(t) => s.as_str().cmp(t.as_str()),
            _ => Ordering::Greater,
        },
    }
}

/// The order of names: by their texts in the table. Where both or none are names of the table with one text, their numbers decide.
pub fn compare_names(names: &Names, a: Name, b: Name) -> Ordering
    ensures { result ≡ spec.compare_names names.now a b }
{
    match compare_texts(names.get(a), names.get(b)) {
        Ordering::Equal => a.cmp(&b),
        order => order,
    }
}

/// The order of texts by their bytes. What has no text comes first.
fn compare_texts(a: Option<&str>, b: Option<&str>) -> Ordering
    ensures { result ≡ spec.compare_texts
        (option_map (λ t. t.now) a.entry) (option_map (λ t. t.now) b.entry) }
{
    match a {
        Some(s) => match b {
            Some(t) => s.cmp(t),
            None => Ordering::Greater,
        },
        None => match b {
            Some(_) => Ordering::Less,
            None => Ordering::Equal,
        },
    }
}

/// The order of members of one type: by their values. The rest decides only between members of different types.
fn compare_member(a: &QualifierMember, b: &QualifierMember) -> Ordering
    ensures { result ≡ spec.compare_member a.now b.now }
{
    match compare_values(&a.value, &b.value) {
        Ordering::Equal => match a.name.cmp(&b.name) {
            Ordering::Equal => a.is_binding.cmp(&b.is_binding),
            order => order,
        },
        order => order,
    }
}

/// The order of lists of members: by the first that differ.
fn compare_members(a: &[QualifierMember], b: &[QualifierMember]) -> Ordering
    ensures { result ≡ spec.compare_members a.now b.now }
{
    let common = a.len().min(b.len());
    for i in 0..common {
        let order = compare_member(&a[i], &b[i]);
        if order.is_ne() {
            return order;
        }
    }
    a.len().cmp(&b.len())
}

/// The order of qualifiers: by the texts of their names, and then by their values in the order of the members' names.
pub fn compare_qualifiers(names: &Names, a: &Qualifier, b: &Qualifier) -> Ordering
    ensures { result ≡ spec.compare_qualifiers names.now a.now b.now }
{
    match compare_names(names, a.name, b.name) {
        Ordering::Equal => compare_members(a.members.as_slice(), b.members.as_slice()),
        order => order,
    }
}
