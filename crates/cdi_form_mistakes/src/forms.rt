//! What is wrong at the first place where a value is not of the form that is wanted.
ghost use Rattle.std.specs.Prelude.{◌≡◌, IfOk, find, map, not, option_map};
ghost use Rattle.std.specs.Option.{option_copied};
ghost use Rattle.serde_json.specs.View.{view, items_view, members_view};
ghost use Rattle.cdi_form.specs.Keys.{is_met};
ghost use Rattle.cdi_form.specs.Table.{row_of};
ghost use Rattle.cdi_form_mistakes.specs.FormMistake as spec;

use crate::mistake::{FormMistake, PlacedMistake, here};
use crate::words::{listed, unknown_word};
use crate::written::written_of;
use cdi_base::Text;
use cdi_form::form::{Kind, Part, item_part, part_at};
use cdi_form::keys::{has, kind_of, kind_word};
use cdi_form::shape::{
    may_be_array, may_be_mark, may_be_null, may_be_number, may_be_text, under_index, under_key,
};
use cdi_form::table::{Row, rows};
use cdi_form::words::{Word, member_kinds, scopes};
use serde_json::{Map, Value as Json};
use std::alloc::{AllocError, Global};

fn keys_of(alloc: Global, rows: &[Row]) -> Result<Vec<&'static str>, AllocError>
    ensures { IfOk result (λ keys. keys.items ≡ map (λ row. row.key) rows.now) }
{
    rows.iter().map(|row| row.key).collect(alloc)
}

/// The keys that a kind of object knows.
fn keys(alloc: Global, kind: Kind) -> Result<Vec<&'static str>, AllocError>
    ensures { IfOk result (λ keys. map (λ key. key.now) keys.items ≡ spec.keys kind) }
{
    Ok(keys_of(alloc, rows(kind))?)
}

fn texts_of<T>(alloc: Global, words: &[Word<T>]) -> Result<Vec<&'static str>, AllocError>
    ensures { IfOk result (λ texts. texts.items ≡ map (λ word. word.text) words.now) }
{
    words.iter().map(|word| word.text).collect(alloc)
}

/// The texts of scopes.
fn scope_texts(alloc: Global) -> Result<Vec<&'static str>, AllocError>
    ensures { IfOk result (λ texts. map (λ text. text.now) texts.items ≡ spec.scope_texts) }
{
    Ok(texts_of(alloc, scopes())?)
}

/// The texts that name kinds of members.
fn member_texts(alloc: Global) -> Result<Vec<&'static str>, AllocError>
    ensures { IfOk result (λ texts. map (λ text. text.now) texts.items ≡ spec.member_texts) }
{
    Ok(texts_of(alloc, member_kinds())?)
}

/// The first key of an object that its kind doesn't know.
fn first_unlisted(kind: Kind, members: &Map<String, Json>) -> Option<&str>
    ensures { option_map (λ key. key.now) result
        ≡ spec.first_unlisted kind (members_view members.now.entries) }
{
    for (key, _) in members.iter() {
        if part_at(kind, key.as_str()).is_none() {
            return Some(key.as_str());
        }
    }
    None
}

/// The first row of a key that is missing.
fn first_unmet<'r>(rows: &'r [Row], members: &Map<String, Json>) -> Option<&'r Row>
    ensures { option_copied result
        ≡ find (λ row. not (is_met (members_view members.now.entries) (row_of row))) rows.now }
{
    rows.iter()
        .find(|row| row.is_required && !has(members, row.key))
}

fn first_missing(kind: Kind, members: &Map<String, Json>) -> Option<&'static str>
    ensures { option_map (λ key. key.now) result
        ≡ spec.first_missing kind (members_view members.now.entries) }
{
    match first_unmet(rows(kind), members) {
        Some(row) => Some(row.key),
        None => None,
    }
}

/// What is wrong with the keys of an object.
fn key_mistake(
    alloc: Global,
    kind: Kind,
    members: &Map<String, Json>,
) -> Result<Option<FormMistake>, AllocError>
    ensures { IfOk result
        (λ mistake. mistake ≡ spec.key_mistake kind (members_view members.now.entries)) }
{
    if let Some(key) = first_unlisted(kind, members) {
        let keys = keys(alloc, kind)?;
        let word = unknown_word(alloc, key, keys.as_slice())?;
        return Ok(Some(FormMistake::UnknownKey(word)));
    }
    match first_missing(kind, members) {
        Some(key) => Ok(Some(FormMistake::MissingKey(Text::from_str(alloc, key)?))),
        None => Ok(None),
    }
}

/// What is wrong with a member that has no kind.
fn member_mistake(alloc: Global, members: &Map<String, Json>) -> Result<FormMistake, AllocError>
    ensures { IfOk result
        (λ mistake. mistake ≡ spec.member_mistake (members_view members.now.entries)) }
{
    let known = member_texts(alloc)?;
    match kind_word(members) {
        Some(word) => Ok(FormMistake::UnknownMemberKind(unknown_word(
            alloc,
            word,
            known.as_slice(),
        )?)),
        None => Ok(FormMistake::NoMemberKind(listed(alloc, known.as_slice())?)),
    }
}

/// What is wrong with an object without a kind.
fn kind_mistake(
    alloc: Global,
    members: &Map<String, Json>,
    value: &Json,
    part: Part,
) -> Result<FormMistake, AllocError>
    ensures { IfOk result (λ mistake. mistake
        ≡ spec.kind_mistake (members_view members.now.entries) (view value.now) part) }
{
    match part {
        Part::Member => member_mistake(alloc, members),
        _ => value_mistake(alloc, value, part),
    }
}

fn scope_mistake(alloc: Global, text: &str) -> Result<FormMistake, AllocError>
    ensures { IfOk result (λ mistake. mistake ≡ spec.scope_mistake text.now) }
{
    let known = scope_texts(alloc)?;
    Ok(FormMistake::UnknownScope(unknown_word(alloc, text, known.as_slice())?))
}

fn wrong_value(alloc: Global, value: &Json, part: Part) -> Result<FormMistake, AllocError>
    ensures { IfOk result (λ mistake. mistake ≡ spec.wrong_value (view value.now) part) }
{
    let written = written_of(alloc, value)?;
    Ok(FormMistake::WrongValue { written, part })
}

/// What is wrong with a value that may not stand at a part.
fn value_mistake(alloc: Global, value: &Json, part: Part) -> Result<FormMistake, AllocError>
    ensures { IfOk result (λ mistake. mistake ≡ spec.value_mistake (view value.now) part) }
{
    match part {
        Part::Scope => match value {
            Json::String(text) => scope_mistake(alloc, text.as_str()),
            _ => wrong_value(alloc, value, part),
        },
        _ => wrong_value(alloc, value, part),
    }
}

fn mistake_unless(
    alloc: Global,
    fits: bool,
    value: &Json,
    part: Part,
) -> Result<Option<PlacedMistake>, AllocError>
    ensures { IfOk result (λ m. m ≡ spec.mistake_unless fits (view value.now) part) }
{
    if fits {
        Ok(None)
    } else {
        Ok(Some(here(alloc, value_mistake(alloc, value, part)?)))
    }
}

/// What is wrong at the first wrong place in a value that is to be of the form of a part, if there is one. An error where a
/// growth was refused.
#[cycle(form_mistake)]
pub fn form_mistake(
    alloc: Global,
    value: &Json,
    part: Part,
) -> Result<Option<PlacedMistake>, AllocError>
    ensures { IfOk result (λ m. m ≡ spec.form_mistake (view value.now) part) }
{
    match value {
        Json::Null => mistake_unless(alloc, may_be_null(part), value, part),
        Json::Bool(_) => mistake_unless(alloc, may_be_mark(part), value, part),
        Json::Number(number) => mistake_unless(alloc, may_be_number(part, number), value, part),
        Json::String(text) => {
            mistake_unless(alloc, may_be_text(part, text.as_str()), value, part)
        }
        Json::Array(items) => if may_be_array(part, value) {
            match item_part(part) {
                Some(inner) => mistake_in_items(alloc, items, inner),
                None => Ok(None),
            }
        } else {
            mistake_unless(alloc, false, value, part)
        },
        Json::Object(members) => match kind_of(part, members) {
            Some(kind) => match key_mistake(alloc, kind, members)? {
                Some(mistake) => Ok(Some(here(alloc, mistake))),
                None => mistake_in_members(alloc, members, kind),
            },
            None => Ok(Some(here(alloc, kind_mistake(alloc, members, value, part)?))),
        },
    }
}

#[cycle(form_mistake)]
fn mistake_in_items(
    alloc: Global,
    items: &Vec<Json>,
    part: Part,
) -> Result<Option<PlacedMistake>, AllocError>
    ensures { IfOk result (λ m. m ≡ spec.mistake_in_items (items_view items.now.items) part 0) }
{
    let mut index = 0usize;
    for item in items {
        if let Some(PlacedMistake { path, mistake }) = form_mistake(alloc, item, part)? {
            let path = under_index(alloc, index, path)?;
            return Ok(Some(PlacedMistake { path, mistake }));
        }
        index += 1;
    }
    Ok(None)
}

#[cycle(form_mistake)]
fn mistake_in_members(
    alloc: Global,
    members: &Map<String, Json>,
    kind: Kind,
) -> Result<Option<PlacedMistake>, AllocError>
    ensures { IfOk result
        (λ m. m ≡ spec.mistake_in_members (members_view members.now.entries) kind) }
{
    for (key, member) in members.iter() {
        let Some(part) = part_at(kind, key.as_str()) else {
            continue;
        };
        if let Some(PlacedMistake { path, mistake }) = form_mistake(alloc, member, part)? {
            let path = under_key(alloc, key.as_str(), path)?;
            return Ok(Some(PlacedMistake { path, mistake }));
        }
    }
    Ok(None)
}
