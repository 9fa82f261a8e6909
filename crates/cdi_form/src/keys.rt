//! Whether an object itself is right: the kind that it is of, and its keys.
ghost use Rattle.std.specs.Prelude.{◌≡◌, option_map};
ghost use Rattle.std.specs.List.{list_all};
ghost use Rattle.std.specs.Option.{is_some};
ghost use Rattle.serde_json.specs.Find.{get_member};
ghost use Rattle.serde_json.specs.View.{view, members_view};
ghost use Rattle.cdi_form.specs.Keys as spec;
ghost use Rattle.cdi_form.specs.Table.{row_of};

use crate::form::{Kind, Part, part_at};
use crate::table::{Row, rows};
use crate::words::member_kind;
use serde_json::{Map, Value as Json};

/// The member of an object at a key.
fn member<'v>(members: &'v Map<String, Json>, key: &str) -> Option<&'v Json>
    ensures { option_map (λ v. view v.now) result
        ≡ get_member key.now (members_view members.now.entries) }
{
    members.get(key)
}

/// Whether an object has a key.
pub fn has(members: &Map<String, Json>, key: &str) -> bool
    ensures { result ≡ is_some (get_member key.now (members_view members.now.entries)) }
{
    member(members, key).is_some()
}

fn are_met(rows: &[Row], members: &Map<String, Json>) -> bool
    ensures { result ≡ list_all
        (λ row. spec.is_met (members_view members.now.entries) (row_of row)) rows.now }
{
    rows.iter()
        .all(|row| !row.is_required || has(members, row.key))
}

fn has_required(kind: Kind, members: &Map<String, Json>) -> bool
    ensures { result ≡ spec.has_required kind (members_view members.now.entries) }
{
    are_met(rows(kind), members)
}

fn are_listed(kind: Kind, members: &Map<String, Json>) -> bool
    ensures { result ≡ spec.are_listed kind (members_view members.now.entries) }
{
    for (key, _) in members.iter() {
        if part_at(kind, key.as_str()).is_none() {
            return false;
        }
    }
    true
}

/// Whether an object itself is right: it has each key that its kind requires, and none that is not listed.
pub(crate) fn has_right_keys(kind: Kind, members: &Map<String, Json>) -> bool
    ensures { result ≡ spec.has_right_keys kind (members_view members.now.entries) }
{
    has_required(kind, members) && are_listed(kind, members)
}

/// The text at the key `kind` of an object, or `None` where it has no such key or no text there.
pub fn kind_word(members: &Map<String, Json>) -> Option<&str>
    ensures { option_map (λ s. s.now) result ≡ spec.kind_word (members_view members.now.entries) }
{
    match member(members, "kind") {
        Some(value) => value.as_str(),
        None => None,
    }
}

/// The kind of the object at a part, or `None` where no object may stand there, and where a member names no kind.
pub fn kind_of(part: Part, members: &Map<String, Json>) -> Option<Kind>
    ensures { result ≡ spec.kind_of part (members_view members.now.entries) }
{
    match part {
        Part::Object(kind) => Some(kind),
        Part::Member => match kind_word(members) {
            Some(word) => member_kind(word),
            None => None,
        },
        _ => None,
    }
}
