//! The entries of a trace as transcripts have them, one after the other: a word for what happened, numbers and names.
use cdi_base::{Act, Entry, Name, Names, Place, Use, Value, Via};
use cdi_problems::PlaceText;
use std::alloc::AllocError;

/// The text of a name, which is empty for one that the table does not hold.
pub(crate) fn push_name(text: &mut String, names: &Names, name: Name) -> Result<(), AllocError> {
    text.push_str(names.get(name).unwrap_or(""))
}

/// A value: null, a number, or a text as it stands.
pub(crate) fn push_value(text: &mut String, value: &Value) -> Result<(), AllocError> {
    match value {
        Value::Null => text.push_str("null"),
        Value::Int(number) => write!(text, "{number}"),
        Value::Text(other) => text.push_str(other.as_str()),
    }
}

/// Each value, with a blank before it.
fn push_values(text: &mut String, values: &[Value]) -> Result<(), AllocError> {
    for value in values {
        text.push(' ')?;
        push_value(text, value)?;
    }
    Ok(())
}

/// A word, a name and values.
pub(crate) fn push_named(
    text: &mut String,
    word: &str,
    names: &Names,
    name: Name,
    values: &[Value],
) -> Result<(), AllocError> {
    text.push_str(word)?;
    push_name(text, names, name)?;
    push_values(text, values)
}

/// A field, a parameter or a local, after the word of what is done by it.
fn push_via(text: &mut String, word: &str, names: &Names, via: Via) -> Result<(), AllocError> {
    text.push_str(word)?;
    match via {
        Via::Field(name) => push_named(text, " field ", names, name, &[]),
        Via::Param(index) => write!(text, " param {index}"),
        Via::Local(index) => write!(text, " local {index}"),
    }
}

/// A word, a name and one value.
fn push_valued(
    text: &mut String,
    word: &str,
    names: &Names,
    name: Name,
    value: &Value,
) -> Result<(), AllocError> {
    push_named(text, word, names, name, &[])?;
    text.push(' ')?;
    push_value(text, value)
}

/// What is done by a reference.
fn push_use(text: &mut String, names: &Names, act: &Act) -> Result<(), AllocError> {
    match act {
        Act::Call { via, method, args } => {
            push_via(text, "call", names, *via)?;
            push_named(text, " ", names, *method, args.as_slice())
        }
        Act::Read { via } => push_via(text, "read", names, *via),
        Act::Write { via, value } => {
            push_via(text, "write", names, *via)?;
            text.push(' ')?;
            push_value(text, value)
        }
        Act::Find { lookup } => write!(text, "find {lookup}"),
        Act::Destroy { local } => write!(text, "destroy {local}"),
        _ => text.push_str("another act"),
    }
}

/// What an interceptor does with its invocation, and other acts that need no reference to a bean.
fn push_chain_act(text: &mut String, names: &Names, act: &Act) -> Result<(), AllocError> {
    match act {
        Act::Proceed { args: None } => text.push_str("proceed"),
        Act::Proceed { args: Some(args) } => {
            text.push_str("proceed with")?;
            push_values(text, args.as_slice())
        }
        Act::Keep { key, value } => push_valued(text, "keep ", names, *key, value),
        Act::Peek { key } => push_named(text, "peek ", names, *key, &[]),
        Act::Fire {
            class,
            qualifiers,
            value,
        } => {
            push_named(text, "fire ", names, *class, &[])?;
            push_first_qualifier(text, names, qualifiers.as_slice())?;
            text.push(' ')?;
            push_value(text, value)
        }
        other => push_use(text, names, other),
    }
}

fn push_act(text: &mut String, names: &Names, act: &Act) -> Result<(), AllocError> {
    match act {
        Act::Set { field, value } => push_valued(text, "set ", names, *field, value),
        Act::Own { method, args } => push_named(text, "own ", names, *method, args.as_slice()),
        Act::Give { value } => {
            text.push_str("give ")?;
            push_value(text, value)
        }
        Act::Throw { exception } => push_named(text, "throw ", names, *exception, &[]),
        other => push_chain_act(text, names, other),
    }
}

/// A word, the number of an instance and a place.
fn push_placed(
    text: &mut String,
    word: &str,
    number: u32,
    names: &Names,
    place: &Place,
) -> Result<(), AllocError> {
    let place = PlaceText { names, place };
    write!(text, "{word} {number} {place}")
}

/// A qualifier with the value of its first member.
fn push_qualifier(text: &mut String, names: &Names, qualifier: &Use) -> Result<(), AllocError> {
    text.push(' ')?;
    push_name(text, names, qualifier.name)?;
    match qualifier.members.get(0) {
        Some(member) => {
            text.push(' ')?;
            push_value(text, &member.value)
        }
        None => Ok(()),
    }
}

/// The first of some qualifiers, if there is one.
fn push_first_qualifier(
    text: &mut String,
    names: &Names,
    qualifiers: &[Use],
) -> Result<(), AllocError> {
    match qualifiers.first() {
        Some(qualifier) => push_qualifier(text, names, qualifier),
        None => Ok(()),
    }
}

/// An event, with its first qualifier.
fn push_event(
    text: &mut String,
    names: &Names,
    class: Name,
    qualifiers: &[Use],
) -> Result<(), AllocError> {
    push_named(text, "event ", names, class, &[])?;
    push_first_qualifier(text, names, qualifiers)
}

fn push_entry(text: &mut String, names: &Names, entry: &Entry) -> Result<(), AllocError> {
    match entry {
        Entry::New { number, bean } => push_placed(text, "new", *number, names, bean),
        Entry::Run { number, member } => push_placed(text, "run", *number, names, member),
        Entry::Did(act) => push_act(text, names, act),
        Entry::Event { class, qualifiers } => {
            push_event(text, names, *class, qualifiers.as_slice())
        }
        Entry::Ready { number } => write!(text, "ready {number}"),
        Entry::End { number } => write!(text, "end {number}"),
        Entry::Gone { number } => write!(text, "gone {number}"),
        Entry::Drop { number } => write!(text, "drop {number}"),
        Entry::Pick { count, choice } => write!(text, "pick {count} {choice}"),
    }
}

/// The entries, each with a semicolon after it.
pub(crate) fn push_entries(
    text: &mut String,
    names: &Names,
    trace: &[Entry],
) -> Result<(), AllocError> {
    for entry in trace {
        push_entry(text, names, entry)?;
        text.push(';')?;
    }
    Ok(())
}
