//! The entries of a trace, as lines.
ghost use Rattle.std.specs.Prelude.{◌≡◌, ◌∷◌, [], codes, string_bytes, IfOk};
ghost use Rattle.serde_json.specs.View.{members_view, view};
ghost use Rattle.cdi_problems.specs.Places.{place_text};
ghost use Rattle.cdi_text.specs.EntryText as spec;
ghost use Rattle.cdi_text.specs.ReplyText.{number_data, value_data};

use cdi_base::{Act, Entry, MemberValue, Name, Names, Place, Seq, Use, Value, Via};
use cdi_problems::{PlaceText, name_text};
use serde_json::{Map, Value as Json, json, put};
use std::alloc::{AllocError, Global};

fn place_string(alloc: Global, names: &Names, place: &Place) -> Result<String, AllocError>
    ensures { IfOk result (λ text. string_bytes text ≡ place_text names.now place.now) }
{
    PlaceText { names, place }.to_string(alloc)
}

fn value_json(alloc: Global, value: &Value) -> Result<Json, AllocError>
    ensures { IfOk result (λ json. view json ≡ value_data value.now) }
{
    match value {
        Value::Null => Ok(Json::Null),
        Value::Int(number) => Ok(Json::from(*number)),
        Value::Text(text) => Ok(Json::String(String::from_str(alloc, text.as_str())?)),
    }
}

fn values_json(alloc: Global, values: &[Value]) -> Result<Json, AllocError>
    ensures { IfOk result (λ json. view json ≡ spec.values_data values.now) }
{
    let mut items = Vec::new(alloc);
    for value in values {
        items.push(value_json(alloc, value)?)?;
    }
    Ok(Json::Array(items))
}

fn members_json(
    alloc: Global,
    names: &Names,
    members: &[MemberValue],
) -> Result<Map<String, Json>, AllocError>
    ensures { IfOk result (λ json. members_view json.entries
        ≡ spec.members_data names.now members.now) }
{
    let mut items = Map::new(alloc);
    for member in members {
        let value = value_json(alloc, &member.value)?;
        put(&mut items, alloc, name_text(names, member.name), value)?;
    }
    Ok(items)
}

fn use_json(alloc: Global, names: &Names, written: &Use) -> Result<Json, AllocError>
    ensures { IfOk result (λ json. view json ≡ spec.use_data names.now written.now) }
{
    let name = name_text(names, written.name);
    if written.members.is_empty() {
        return Ok(Json::String(String::from_str(alloc, name)?));
    }
    let members = Json::Object(members_json(alloc, names, written.members.as_slice())?);
    json!(in alloc; [name, members])
}

fn uses_json(alloc: Global, names: &Names, uses: &[Use]) -> Result<Json, AllocError>
    ensures { IfOk result (λ json. view json ≡ spec.uses_data names.now uses.now) }
{
    let mut items = Vec::new(alloc);
    for written in uses {
        items.push(use_json(alloc, names, written)?)?;
    }
    Ok(Json::Array(items))
}

fn via_json(alloc: Global, names: &Names, via: Via) -> Result<Json, AllocError>
    ensures { IfOk result (λ json. view json ≡ spec.via_data names.now via) }
{
    match via {
        Via::Field(field) => json!(in alloc; ["field", name_text(names, field)]),
        Via::Param(place) => json!(in alloc; ["param", place]),
        Via::Local(place) => json!(in alloc; ["local", place]),
    }
}

/// A word and a name.
fn named(alloc: Global, names: &Names, word: &str, name: Name) -> Result<Json, AllocError>
    ensures { IfOk result (λ json. view json
        ≡ spec.worded word.now (spec.name_data names.now name ∷ [])) }
{
    json!(in alloc; [word, name_text(names, name)])
}

/// A word, a name and a value.
fn named_value(
    alloc: Global,
    names: &Names,
    word: &str,
    name: Name,
    value: &Value,
) -> Result<Json, AllocError>
    ensures { IfOk result (λ json. view json
        ≡ spec.worded word.now (spec.name_data names.now name ∷ value_data value.now ∷ [])) }
{
    let value = value_json(alloc, value)?;
    json!(in alloc; [word, name_text(names, name), value])
}

/// A word and the number of an instance.
fn numbered(alloc: Global, word: &str, number: u32) -> Result<Json, AllocError>
    ensures { IfOk result (λ json. view json
        ≡ spec.worded word.now (number_data number ∷ [])) }
{
    json!(in alloc; [word, number])
}

/// A word, the number of an instance and a place.
fn placed(
    alloc: Global,
    names: &Names,
    word: &str,
    number: u32,
    place: &Place,
) -> Result<Json, AllocError>
    ensures { IfOk result (λ json. view json ≡ spec.worded word.now
        (number_data number ∷ spec.place_data names.now place.now ∷ [])) }
{
    let place = place_string(alloc, names, place)?;
    json!(in alloc; [word, number, place])
}

fn proceed_json(alloc: Global, args: &Option<Seq<Value>>) -> Result<Json, AllocError>
    ensures { IfOk result (λ json. view json ≡ spec.proceed_data args.now) }
{
    match args {
        Some(args) => {
            let args = values_json(alloc, args.as_slice())?;
            json!(in alloc; ["proceed", args])
        }
        None => json!(in alloc; ["proceed"]),
    }
}

fn call_json(
    alloc: Global,
    names: &Names,
    via: Via,
    method: Name,
    args: &[Value],
) -> Result<Json, AllocError>
    ensures { IfOk result (λ json. view json ≡ spec.worded (codes "call")
        (spec.via_data names.now via ∷ spec.name_data names.now method
        ∷ spec.values_data args.now ∷ [])) }
{
    let via = via_json(alloc, names, via)?;
    let args = values_json(alloc, args)?;
    json!(in alloc; ["call", via, name_text(names, method), args])
}

fn own_json(alloc: Global, names: &Names, method: Name, args: &[Value]) -> Result<Json, AllocError>
    ensures { IfOk result (λ json. view json ≡ spec.worded (codes "own")
        (spec.name_data names.now method ∷ spec.values_data args.now ∷ [])) }
{
    let args = values_json(alloc, args)?;
    json!(in alloc; ["own", name_text(names, method), args])
}

fn fire_json(
    alloc: Global,
    names: &Names,
    class: Name,
    qualifiers: &[Use],
    value: &Value,
) -> Result<Json, AllocError>
    ensures { IfOk result (λ json. view json ≡ spec.worded (codes "fire")
        (spec.name_data names.now class ∷ spec.uses_data names.now qualifiers.now
        ∷ value_data value.now ∷ [])) }
{
    let qualifiers = uses_json(alloc, names, qualifiers)?;
    let value = value_json(alloc, value)?;
    json!(in alloc; ["fire", name_text(names, class), qualifiers, value])
}

fn write_json(alloc: Global, names: &Names, via: Via, value: &Value) -> Result<Json, AllocError>
    ensures { IfOk result (λ json. view json ≡ spec.worded (codes "write")
        (spec.via_data names.now via ∷ value_data value.now ∷ [])) }
{
    let via = via_json(alloc, names, via)?;
    let value = value_json(alloc, value)?;
    json!(in alloc; ["write", via, value])
}

/// What a word and one more stand for.
fn paired(alloc: Global, word: &str, second: Json) -> Result<Json, AllocError>
    ensures { IfOk result (λ json. view json ≡ spec.worded word.now (view second ∷ [])) }
{
    json!(in alloc; [word, second])
}

/// An act, as the step of a script that gives it.
fn act_json(alloc: Global, names: &Names, act: &Act) -> Result<Json, AllocError>
    ensures { IfOk result (λ json. view json ≡ spec.act_data names.now act.now) }
{
    match act {
        Act::Set { field, value } => named_value(alloc, names, "set", *field, value),
        Act::Call { via, method, args } => call_json(alloc, names, *via, *method, args.as_slice()),
        Act::Own { method, args } => own_json(alloc, names, *method, args.as_slice()),
        Act::Read { via } => paired(alloc, "read", via_json(alloc, names, *via)?),
        Act::Write { via, value } => write_json(alloc, names, *via, value),
        Act::Fire {
            class,
            qualifiers,
            value,
        } => fire_json(alloc, names, *class, qualifiers.as_slice(), value),
        Act::Proceed { args } => proceed_json(alloc, args),
        Act::Find { lookup } => numbered(alloc, "find", *lookup),
        Act::Keep { key, value } => named_value(alloc, names, "keep", *key, value),
        Act::Peek { key } => named(alloc, names, "peek", *key),
        Act::Destroy { local } => {
            paired(
                alloc,
                "destroy",
                via_json(alloc, names, Via::Local(*local))?,
            )
        }
        Act::Give { value } => paired(alloc, "give", value_json(alloc, value)?),
        Act::Throw { exception } => named(alloc, names, "throw", *exception),
    }
}

fn event_json(
    alloc: Global,
    names: &Names,
    class: Name,
    qualifiers: &[Use],
) -> Result<Json, AllocError>
    ensures { IfOk result (λ json. view json ≡ spec.worded (codes "event")
        (spec.name_data names.now class ∷ spec.uses_data names.now qualifiers.now ∷ [])) }
{
    let qualifiers = uses_json(alloc, names, qualifiers)?;
    json!(in alloc; ["event", name_text(names, class), qualifiers])
}

fn entry_json(alloc: Global, names: &Names, entry: &Entry) -> Result<Json, AllocError>
    ensures { IfOk result (λ json. view json ≡ spec.entry_data names.now entry.now) }
{
    match entry {
        Entry::New { number, bean } => placed(alloc, names, "new", *number, bean),
        Entry::Ready { number } => numbered(alloc, "ready", *number),
        Entry::Drop { number } => numbered(alloc, "drop", *number),
        Entry::Run { number, member } => placed(alloc, names, "run", *number, member),
        Entry::Did(act) => paired(alloc, "did", act_json(alloc, names, act)?),
        Entry::Pick { count, choice } => json!(in alloc; ["pick", *count, *choice]),
        Entry::Event { class, qualifiers } => {
            event_json(alloc, names, *class, qualifiers.as_slice())
        }
        Entry::End { number } => numbered(alloc, "end", *number),
        Entry::Gone { number } => numbered(alloc, "gone", *number),
    }
}

/// The line of an entry: a JSON array in compact form, with the names of a table, and a line feed. Its first item is the word of the
/// entry; an act is written as the step of a script that gives it, with values for expressions. The one error is [`AllocError`], if
/// a growth was refused.
#[tactic(auto, using(crate::proofs::EntriesWithoutFloats::no_float_in_entry))]
pub fn write_entry(alloc: Global, names: &Names, entry: &Entry) -> Result<Vec<u8>, AllocError>
    ensures { IfOk result (λ line. line.items ≡ spec.entry_line names.now entry.now) }
{
    let mut line = entry_json(alloc, names, entry)?.to_vec(alloc)?;
    line.push(b'\n')?;
    Ok(line)
}

/// The lines of the entries of a trace, one after the other. The one error is [`AllocError`], if a growth was refused.
pub fn write_trace(alloc: Global, names: &Names, trace: &[Entry]) -> Result<Vec<u8>, AllocError>
    ensures { IfOk result (λ lines. lines.items ≡ spec.trace_lines names.now trace.now) }
{
    let mut lines = Vec::new(alloc);
    for entry in trace {
        lines.extend_from_slice(&write_entry(alloc, names, entry)?)?;
    }
    Ok(lines)
}
