//! The JSON value that bytes are, and whether a value is a word.
ghost use Rattle.std.specs.Prelude.{◌≡◌, false, IfOk, option_map};
ghost use Rattle.std.specs.Str.{is_utf8};
ghost use Rattle.serde_json.specs.View.{view};
ghost use Rattle.cdi_form.specs.Json as spec;

use serde_json::Value as Json;
use std::alloc::{AllocError, Global};

/// The JSON value that these bytes are, or `None` where they are no JSON text in UTF-8. White space may stand round the
/// value, and nothing else. An error where a growth was refused, which can be only where the bytes are UTF-8.
#[tactic(auto, unfolding(crate::specs::Json::json_in))]
pub fn read_json(alloc: Global, bytes: &[u8]) -> Result<Option<Json>, AllocError>
    ensures read { IfOk result (λ value. option_map view value ≡ spec.json_in bytes.now) }
    ensures no_text { is_utf8 bytes.now ≡ false → result ≡ Ok None }
{
    let Ok(text) = std::str::from_utf8(bytes) else {
        return Ok(None);
    };
    match Json::from_str(alloc, text) {
        Ok(value) => Ok(Some(value)),
        Err(error) => if error.is_memory() {
            Err(AllocError)
        } else {
            Ok(None)
        },
    }
}

/// Whether a value is this text.
pub fn is_word(value: &Json, word: &str) -> bool
    ensures { result ≡ spec.is_word (view value.now) word.now }
{
    match value {
        Json::String(text) => text.as_str() == word,
        _ => false,
    }
}
