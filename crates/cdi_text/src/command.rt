//! Reading a command line.
ghost use Rattle.std.specs.Prelude.{◌≡◌, false, Err};
ghost use Rattle.std.specs.List.{list_all};
ghost use Rattle.std.specs.Str.{is_utf8};
ghost use Rattle.cdi_base.specs.Reading.{Gives, IsFault};
ghost use Rattle.cdi_base.specs.Uses.{has_names};
ghost use Rattle.serde_json.specs.View.{view, items_view};
ghost use Rattle.cdi_text.specs.Command as spec;

use crate::json_reader::JsonReader;
use cdi_base::{Command, OrMemory, Seq, Text, Value, WrittenUse, is_name};
use cdi_form::{Form, is_word, list_of};
use serde_json::Value as Json;
use std::alloc::Global;
use thiserror::Error;

/// The line is not one JSON array in UTF-8 that has the form of a command, as [`read_command`] lists them.
#[derive(Clone, Copy, Debug, PartialEq, Eq, Error)]
#[error("BadLine")]
pub struct BadLine;

fn bad<T>() -> Result<T, OrMemory<BadLine>>
    ensures { result ≡ Err (OrMemory.Fault (record {})) }
{
    Err(OrMemory::Fault(BadLine))
}

fn name_of(alloc: Global, value: &Json) -> Result<Text, OrMemory<BadLine>>
    ensures { Gives (λ name. name) result (spec.name_of (view value.now)) }
{
    match value {
        Json::String(text) => {
            if !is_name(text.as_str()) {
                return bad();
            }
            Ok(Text::from_str(alloc, text.as_str())?)
        }
        _ => bad(),
    }
}

fn request_of(alloc: Global, value: &Json) -> Result<Option<Text>, OrMemory<BadLine>>
    ensures { Gives (λ request. request) result (spec.request_of (view value.now)) }
{
    match value {
        Json::Null => Ok(None),
        _ => Ok(Some(name_of(alloc, value)?)),
    }
}

fn value_of(alloc: Global, value: &Json) -> Result<Value, OrMemory<BadLine>>
    ensures { Gives (λ v. v) result (spec.value_of (view value.now)) }
{
    match Value::read(alloc, value)? {
        Some(value) => Ok(value),
        None => bad(),
    }
}

fn values_of(alloc: Global, value: &Json) -> Result<Seq<Value>, OrMemory<BadLine>>
    ensures { Gives (λ values. values) result (spec.values_of (view value.now)) }
{
    match list_of::<Value>(alloc, value)? {
        Some(values) => Ok(values),
        None => bad(),
    }
}

fn are_named(uses: &[WrittenUse]) -> bool
    ensures { result ≡ list_all has_names uses.now }
{
    uses.iter().all(WrittenUse::has_names)
}

fn qualifiers_of(alloc: Global, value: &Json) -> Result<Seq<WrittenUse>, OrMemory<BadLine>>
    ensures { Gives (λ uses. uses) result (spec.qualifiers_of (view value.now)) }
{
    let Some(uses) = list_of::<WrittenUse>(alloc, value)? else {
        return bad();
    };
    if !are_named(uses.as_slice()) {
        return bad();
    }
    Ok(uses)
}

fn begin_of(alloc: Global, items: &[Json]) -> Result<Command, OrMemory<BadLine>>
    ensures { Gives (λ c. c) result (spec.begin_of (items_view items.now)) }
{
    match items {
        [request] => Ok(Command::Begin {
            request: name_of(alloc, request)?,
            session: None,
        }),
        [request, session] => {
            let request = name_of(alloc, request)?;
            let session = Some(name_of(alloc, session)?);
            Ok(Command::Begin { request, session })
        }
        _ => bad(),
    }
}

#[tactic(auto, unfolding(crate::specs::Command::call_with))]
fn call_with(
    alloc: Global,
    request: &Json,
    bean_type: &Json,
    qualifiers: &Json,
    method: &Json,
    args: &Json,
) -> Result<Command, OrMemory<BadLine>>
    ensures { Gives (λ c. c) result (spec.call_with (view request.now) (view bean_type.now)
        (view qualifiers.now) (view method.now) (view args.now)) }
{
    let request = request_of(alloc, request)?;
    let bean_type = name_of(alloc, bean_type)?;
    let qualifiers = qualifiers_of(alloc, qualifiers)?;
    let method = name_of(alloc, method)?;
    let args = values_of(alloc, args)?;
    Ok(Command::Call {
        request,
        bean_type,
        qualifiers,
        method,
        args,
    })
}

fn call_of(alloc: Global, items: &[Json]) -> Result<Command, OrMemory<BadLine>>
    ensures { Gives (λ c. c) result (spec.call_of (items_view items.now)) }
{
    let [request, bean_type, qualifiers, method, args] = items else {
        return bad();
    };
    call_with(alloc, request, bean_type, qualifiers, method, args)
}

#[tactic(auto, unfolding(crate::specs::Command::read_with))]
fn read_with(
    alloc: Global,
    request: &Json,
    bean_type: &Json,
    qualifiers: &Json,
) -> Result<Command, OrMemory<BadLine>>
    ensures { Gives (λ c. c) result
        (spec.read_with (view request.now) (view bean_type.now) (view qualifiers.now)) }
{
    let request = request_of(alloc, request)?;
    let bean_type = name_of(alloc, bean_type)?;
    let qualifiers = qualifiers_of(alloc, qualifiers)?;
    Ok(Command::Read {
        request,
        bean_type,
        qualifiers,
    })
}

fn read_of(alloc: Global, items: &[Json]) -> Result<Command, OrMemory<BadLine>>
    ensures { Gives (λ c. c) result (spec.read_of (items_view items.now)) }
{
    let [request, bean_type, qualifiers] = items else {
        return bad();
    };
    read_with(alloc, request, bean_type, qualifiers)
}

#[tactic(auto, unfolding(crate::specs::Command::fire_with))]
fn fire_with(
    alloc: Global,
    request: &Json,
    class: &Json,
    qualifiers: &Json,
    value: &Json,
) -> Result<Command, OrMemory<BadLine>>
    ensures { Gives (λ c. c) result (spec.fire_with (view request.now) (view class.now)
        (view qualifiers.now) (view value.now)) }
{
    let request = request_of(alloc, request)?;
    let class = name_of(alloc, class)?;
    let qualifiers = qualifiers_of(alloc, qualifiers)?;
    let value = value_of(alloc, value)?;
    Ok(Command::Fire {
        request,
        class,
        qualifiers,
        value,
    })
}

fn fire_of(alloc: Global, items: &[Json]) -> Result<Command, OrMemory<BadLine>>
    ensures { Gives (λ c. c) result (spec.fire_of (items_view items.now)) }
{
    let [request, class, qualifiers, value] = items else {
        return bad();
    };
    fire_with(alloc, request, class, qualifiers, value)
}

fn name_alone(alloc: Global, items: &[Json]) -> Result<Text, OrMemory<BadLine>>
    ensures { Gives (λ name. name) result (spec.name_alone (items_view items.now)) }
{
    let [name] = items else {
        return bad();
    };
    name_of(alloc, name)
}

fn alone(command: Command, items: &[Json]) -> Result<Command, OrMemory<BadLine>>
    ensures { Gives (λ c. c) result (spec.alone command (items_view items.now)) }
{
    match items {
        [] => Ok(command),
        [_, ..] => bad(),
    }
}

fn end_of(alloc: Global, items: &[Json]) -> Result<Command, OrMemory<BadLine>>
    ensures { Gives (λ c. c) result (spec.end_of (items_view items.now)) }
{
    let request = name_alone(alloc, items)?;
    Ok(Command::End { request })
}

fn invalidate_of(alloc: Global, items: &[Json]) -> Result<Command, OrMemory<BadLine>>
    ensures { Gives (λ c. c) result (spec.invalidate_of (items_view items.now)) }
{
    let session = name_alone(alloc, items)?;
    Ok(Command::Invalidate { session })
}

/// The command with this word, and these items behind it.
#[tactic(auto, unfolding(crate::specs::Command::command_named))]
fn command_named(alloc: Global, word: &Json, items: &[Json]) -> Result<Command, OrMemory<BadLine>>
    ensures { Gives (λ c. c) result (spec.command_named (view word.now) (items_view items.now)) }
{
    if is_word(word, "begin") {
        return begin_of(alloc, items);
    }
    if is_word(word, "call") {
        return call_of(alloc, items);
    }
    if is_word(word, "read") {
        return read_of(alloc, items);
    }
    if is_word(word, "fire") {
        return fire_of(alloc, items);
    }
    if is_word(word, "end") {
        return end_of(alloc, items);
    }
    if is_word(word, "invalidate") {
        return invalidate_of(alloc, items);
    }
    if is_word(word, "live") {
        return alone(Command::Live, items);
    }
    if is_word(word, "shutdown") {
        return alone(Command::Shutdown, items);
    }
    bad()
}

fn command_of(alloc: Global, value: &Json) -> Result<Command, OrMemory<BadLine>>
    ensures { Gives (λ c. c) result (spec.command_of (view value.now)) }
{
    let Json::Array(items) = value else {
        return bad();
    };
    match items.as_slice() {
        [] => bad(),
        [word, others @ ..] => command_named(alloc, word, others),
    }
}

/// Reads the command that a line is. The line is one JSON array with JSON white space round it, if any:
///
/// - `["begin",R]` and `["begin",R,S]` begin a request, in a session if one is named.
/// - `["call",R,type,quals,method,args]` calls a method of the bean that a type and qualifiers resolve to.
/// - `["read",R,type,quals]` reads the product that they resolve to.
/// - `["fire",R,class,quals,value]` fires an event.
/// - `["end",R]` ends a request, `["invalidate",S]` a session.
/// - `["live"]` asks for the live instances.
/// - `["shutdown"]` shuts the container down.
///
/// Each R, S, type, class and method is a name (see [`is_name`]); R may be null where a type or class follows. The
/// qualifiers are uses, whose texts in a name's place are names, and each of the args and a value is null, a number that
/// is an `i64`, or a text.
///
/// Every other line is a [`BadLine`]. An error is [`OrMemory::Memory`] where a growth was refused, which can be only
/// where the line is UTF-8. The reader keeps its room for the next line, and no answer depends on it.
#[tactic(auto, unfolding(crate::specs::Command::command_in))]
pub fn read_command(
    alloc: Global,
    reader: &mut JsonReader,
    line: &[u8],
) -> Result<Command, OrMemory<BadLine>>
    ensures gives { Gives (λ c. c) result (spec.command_in line.now) }
    ensures no_text { is_utf8 line.now ≡ false → IsFault result (record {}) }
{
    let Some(value) = reader.read(alloc, line)? else {
        return bad();
    };
    command_of(alloc, &value)
}
