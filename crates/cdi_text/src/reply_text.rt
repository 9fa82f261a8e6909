//! The replies of a container, as lines.
ghost use Rattle.std.specs.Prelude.{◌≡◌, ◌∷◌, ◌++◌, [], IfOk, codes};
ghost use Rattle.std.specs.Fmt.{signed_decimal};
ghost use Rattle.serde_json.specs.Data.{string};
ghost use Rattle.serde_json.specs.View.{view};
ghost use Rattle.serde_json.specs.Written.{compact_text};
ghost use Rattle.json.specs.Token.{begin_array, end_array};
ghost use Rattle.json.specs.Token.{string as string_token, number as number_token};
ghost use Rattle.json.specs.Print.{print};
ghost use Rattle.cdi_text.specs.ReplyText as spec;

use cdi_base::{Names, Reply, Value};
use cdi_problems::name_text;
use json::Writer;
use serde_json::{Value as Json, json};
use std::alloc::{AllocError, Global};

/// How many bytes the line of most replies needs.
const SHORT_LINE: usize = 32;

/// The beginning of a reply: an array whose first item is a word.
fn begun(alloc: Global, word: &str) -> Result<Writer, AllocError>
    ensures before { IfOk result (λ w. w.before ≡ []) }
    ensures tokens { IfOk result (λ w. w.tokens ≡ begin_array ∷ string_token word.now ∷ []) }
{
    let mut writer = Writer::new(Vec::with_capacity(alloc, SHORT_LINE)?);
    writer.begin_array()?;
    writer.string(word)?;
    Ok(writer)
}

/// The line of a reply of which the end is left: of the array, and of the line.
fn ended(writer: Writer) -> Result<Vec<u8>, AllocError>
    ensures { IfOk result (λ line. line.items
        ≡ writer.before ++ (print (writer.tokens ++ end_array ∷ []) ++ 10 ∷ [])) }
{
    let mut writer = writer;
    writer.end_array()?;
    line_of(writer.into_inner())
}

/// A text as a line.
fn line_of(text: Vec<u8>) -> Result<Vec<u8>, AllocError>
    ensures { IfOk result (λ line. line.items ≡ text.items ++ 10 ∷ []) }
{
    let mut line = text;
    line.push(b'\n')?;
    Ok(line)
}

/// The line of a word alone.
fn word_line(alloc: Global, word: &str) -> Result<Vec<u8>, AllocError>
    ensures { IfOk result (λ line. line.items ≡ compact_text (spec.one word.now) ++ 10 ∷ []) }
{
    ended(begun(alloc, word)?)
}

/// The line of a word and a text.
fn text_line(alloc: Global, word: &str, text: &str) -> Result<Vec<u8>, AllocError>
    ensures { IfOk result (λ line. line.items
        ≡ compact_text (spec.pair word.now (string text.now)) ++ 10 ∷ []) }
{
    let mut writer = begun(alloc, word)?;
    writer.string(text)?;
    ended(writer)
}

/// The line of a reply that has begun, with an integer.
fn integer_line(writer: Writer, number: i64) -> Result<Vec<u8>, AllocError>
    ensures { IfOk result (λ line. line.items ≡ writer.before
        ++ (print (writer.tokens ++ number_token (signed_decimal number) ∷ end_array ∷ [])
        ++ 10 ∷ [])) }
{
    let mut writer = writer;
    writer.i64(number)?;
    ended(writer)
}

/// The line of a value.
fn value_line(alloc: Global, value: &Value) -> Result<Vec<u8>, AllocError>
    ensures { IfOk result (λ line. line.items
        ≡ compact_text (spec.pair (codes "value") (spec.value_data value.now)) ++ 10 ∷ []) }
{
    let mut writer = begun(alloc, "value")?;
    match value {
        Value::Null => {
            writer.null()?;
            ended(writer)
        }
        Value::Int(number) => integer_line(writer, *number),
        Value::Text(text) => {
            writer.string(text.as_str())?;
            ended(writer)
        }
    }
}

fn numbers_json(alloc: Global, numbers: &[u32]) -> Result<Json, AllocError>
    ensures { IfOk result (λ json. view json ≡ spec.numbers_data numbers.now) }
{
    let mut items = Vec::new(alloc);
    for number in numbers {
        items.push(Json::from(*number))?;
    }
    Ok(Json::Array(items))
}

fn live_json(alloc: Global, numbers: &[u32]) -> Result<Json, AllocError>
    ensures { IfOk result (λ json. view json
        ≡ spec.pair (codes "live") (spec.numbers_data numbers.now)) }
{
    let numbers = numbers_json(alloc, numbers)?;
    json!(in alloc; ["live", numbers])
}

/// The line of the numbers of live instances.
#[tactic(auto, using(crate::proofs::NoFloats::no_float_in_live))]
fn live_line(alloc: Global, numbers: &[u32]) -> Result<Vec<u8>, AllocError>
    ensures { IfOk result (λ line. line.items
        ≡ compact_text (spec.pair (codes "live") (spec.numbers_data numbers.now)) ++ 10 ∷ []) }
{
    line_of(live_json(alloc, numbers)?.to_vec(alloc)?)
}

/// The line of a reply: a JSON array in compact form, with the names of a table, and a line feed. The one error is
/// [`AllocError`], where a growth was refused.
pub fn write_reply(alloc: Global, names: &Names, reply: &Reply) -> Result<Vec<u8>, AllocError>
    ensures { IfOk result (λ line. line.items ≡ spec.reply_line names.now reply.now) }
{
    match reply {
        Reply::Value(value) => value_line(alloc, value),
        Reply::Threw(class) => text_line(alloc, "threw", name_text(names, *class)),
        Reply::Done => word_line(alloc, "done"),
        Reply::Live(numbers) => live_line(alloc, numbers.as_slice()),
        Reply::Refused(refusal) => text_line(alloc, "refused", refusal.word()),
        Reply::Halted(cause) => text_line(alloc, "halted", cause.word()),
    }
}
