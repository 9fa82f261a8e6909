//! A reader of JSON values that keeps its room from one text to the next.
ghost use Rattle.std.specs.Prelude.{◌≡◌, ◌<◌, length, false, true, Err, Some, None, IfOk, OnOk, option_map};
ghost use Rattle.std.specs.Str.{is_utf8};
ghost use Rattle.json.specs.Json.{value, items, members};
ghost use Rattle.serde_json.specs.Data.{no_members};
ghost use Rattle.serde_json.specs.Read.{of_json, of_items, of_members, converted, float_of, number_from, number_of, read as value_of_text};
ghost use Rattle.serde_json.specs.View.{view, items_view, members_view, number_view};
ghost use Rattle.cdi_form.specs.Json as spec;

use fast_float::Numeral;
use json::{Invalid, Reader, Scratch, Token};
use serde_json::{Map, Number, Value as Json};
use std::alloc::{AllocError, AllocFailed, Global};

/// How many arrays and objects may stand in one another.
const MAX_DEPTH: usize = 127;

/// Why there is no value.
#[derive(Clone, Copy, PartialEq, Eq)]
enum Unread {
    /// The text is no JSON, or has a number that is out of range.
    NotJson,
    /// A growth was refused.
    OutOfMemory,
}

impl From<Invalid> for Unread {
    ghost use Rattle.cdi_text.specs.declared.json_reader.Unread.TheVariants.{NotJson};

    ghost from_gives = { λ _ e. e ≡ NotJson };

    fn from(_invalid: Invalid) -> Unread {
        Unread::NotJson
    }
}

impl From<AllocError> for Unread {
    ghost use Rattle.cdi_text.specs.declared.json_reader.Unread.TheVariants.{OutOfMemory};

    ghost from_gives = { λ _ e. e ≡ OutOfMemory };

    fn from(_refused: AllocError) -> Unread {
        Unread::OutOfMemory
    }
}

impl<T: Drop> From<AllocFailed<T>> for Unread {
    ghost use Rattle.cdi_text.specs.declared.json_reader.Unread.TheVariants.{OutOfMemory};

    ghost from_gives = { λ _ e. e ≡ OutOfMemory };

    fn from(_refused: AllocFailed<T>) -> Unread {
        Unread::OutOfMemory
    }
}

/// The number nearest to a numeral, if it is in range.
fn nearest_number(negative: bool, numeral: &Numeral<'_>) -> Option<Number>
    ensures { option_map number_view result ≡ float_of negative numeral.now }
{
    Number::from_f64(numeral.to_float::<f64>(negative))
}

/// The number of a numeral without a sign.
fn number_of_digits(numeral: &Numeral<'_>) -> Option<Number>
    ensures { option_map number_view result ≡ number_from false numeral.now }
{
    match numeral.to_u64() {
        Some(number) => Number::from_u128(u128::from(number)),
        None => nearest_number(false, numeral),
    }
}

/// The number of a numeral behind a minus. Zero is no integer there.
fn number_below_zero(numeral: &Numeral<'_>) -> Option<Number>
    ensures { option_map number_view result ≡ number_from true numeral.now }
{
    match numeral.to_i64(true) {
        Some(number) if number < 0 => Number::from_i128(i128::from(number)),
        _ => nearest_number(true, numeral),
    }
}

/// The number that a text of JSON is.
#[tactic(auto, unfolding(serde_json::specs::Read::number_of))]
fn number_in(text: &str) -> Option<Number>
    ensures { option_map number_view result ≡ number_of text.now }
{
    match text.as_bytes() {
        [b'-', digits @ ..] => number_below_zero(&Numeral::scan(digits)),
        digits => number_of_digits(&Numeral::scan(digits)),
    }
}

/// The next value of a text, with at most so many arrays and objects in one another.
#[cycle(next_value)]
fn next_value(alloc: Global, reader: &mut Reader<'_>, depth: usize) -> Result<Json, Unread>
    ensures ok { IfOk result
        (λ v. converted of_json (value depth reader.old) ≡ Some (view v, reader.new)) }
    ensures shorter { OnOk result (length reader.new < length reader.old) }
    ensures err { result ≡ Err Unread.NotJson → converted of_json (value depth reader.old) ≡ None }
{
    let token = reader.next().ok_or(Unread::NotJson)?;
    match token {
        Token::String(text) => Ok(Json::String(String::from_str(alloc, text)?)),
        Token::Number(text) => match number_in(text) {
            Some(number) => Ok(Json::Number(number)),
            None => Err(Unread::NotJson),
        },
        Token::Bool(truth) => Ok(Json::Bool(truth)),
        Token::Null => Ok(Json::Null),
        Token::EndObject | Token::EndArray | Token::Key(_) | Token::Bad => Err(Unread::NotJson),
        Token::BeginArray => {
            if depth == 0 {
                return Err(Unread::NotJson);
            }
            Ok(Json::Array(next_items(alloc, reader, depth - 1)?))
        }
        Token::BeginObject => {
            if depth == 0 {
                return Err(Unread::NotJson);
            }
            Ok(Json::Object(next_members(alloc, reader, depth - 1)?))
        }
    }
}

/// The items of an array that has begun.
#[cycle(next_value)]
fn next_items(alloc: Global, reader: &mut Reader<'_>, depth: usize) -> Result<Vec<Json>, Unread>
    ensures ok { IfOk result
        (λ v. converted of_items (items (value depth) (length reader.old) reader.old)
        ≡ Some (items_view v.items, reader.new)) }
    ensures shorter { OnOk result (length reader.new < length reader.old) }
    ensures err { result ≡ Err Unread.NotJson
        → converted of_items (items (value depth) (length reader.old) reader.old) ≡ None }
{
    let mut found = Vec::new(alloc);
    'items: while !reader.take_end_array() {
        let item = next_value(alloc, reader, depth)?;
        found.push(item)?;
    }
    Ok(found)
}

/// The members of an object that has begun. Of members with one key the last stays.
#[cycle(next_value)]
fn next_members(
    alloc: Global,
    reader: &mut Reader<'_>,
    depth: usize,
) -> Result<Map<String, Json>, Unread>
    ensures ok { IfOk result
        (λ m. converted (λ ms. of_members ms no_members)
        (members (value depth) (length reader.old) reader.old)
        ≡ Some (members_view m.entries, reader.new)) }
    ensures shorter { OnOk result (length reader.new < length reader.old) }
    ensures err { result ≡ Err Unread.NotJson
        → converted (λ ms. of_members ms no_members)
        (members (value depth) (length reader.old) reader.old) ≡ None }
{
    let mut found = Map::new(alloc);
    'members: while let Some(name) = reader.next_key()? {
        let key = String::from_str(alloc, name)?;
        let member = next_value(alloc, reader, depth)?;
        drop(found.insert(key, member)?);
    }
    Ok(found)
}

/// The value that a whole text is.
fn whole_value(alloc: Global, text: &str, room: &mut Scratch) -> Result<Json, Unread>
    ensures ok { IfOk result (λ v. value_of_text text.now ≡ Some (view v)) }
    ensures err { result ≡ Err Unread.NotJson → value_of_text text.now ≡ None }
{
    let Ok(mut reader) = Reader::new(text, room) else {
        return Err(Unread::OutOfMemory);
    };
    let value = next_value(alloc, &mut reader, MAX_DEPTH)?;
    if reader.next().is_some() {
        return Err(Unread::NotJson);
    }
    Ok(value)
}

/// A reader of JSON values. It keeps the room that a read takes beside the value, 16 KB and the length of the longest text, so that
/// many short texts are read without clearing it for each.
#[derive(Drop)]
pub struct JsonReader {
    room: Scratch,
}

impl JsonReader {
    /// A reader that has read nothing.
    pub fn new(alloc: Global) -> JsonReader {
        JsonReader {
            room: Scratch::new(alloc),
        }
    }

    /// The JSON value that these bytes are, as [`cdi_form::read_json`] reads it.
    #[tactic(auto, unfolding(cdi_form::specs::Json::json_in))]
    pub fn read(&mut self, alloc: Global, bytes: &[u8]) -> Result<Option<Json>, AllocError>
        ensures read { IfOk result (λ value. option_map view value ≡ spec.json_in bytes.now) }
        ensures no_text { is_utf8 bytes.now ≡ false → result ≡ Ok None }
    {
        let Ok(text) = std::str::from_utf8(bytes) else {
            return Ok(None);
        };
        match whole_value(alloc, text, &mut self.room) {
            Ok(value) => Ok(Some(value)),
            Err(Unread::NotJson) => Ok(None),
            Err(Unread::OutOfMemory) => Err(AllocError),
        }
    }
}
