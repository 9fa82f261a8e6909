//! What is wrong with bytes that are no JSON text.
ghost use Rattle.std.specs.Prelude.{◌≡◌};
ghost use Rattle.std.specs.Str.{is_utf8};
ghost use Rattle.cdi_prepare.specs.Syntax as spec;

use crate::hint::Mistake;

/// The byte order mark in UTF-8.
const MARK: &[u8] = &[0xEF, 0xBB, 0xBF];

fn has_mark(bytes: &[u8]) -> bool
    ensures { result ≡ spec.has_mark bytes.now }
{
    bytes.starts_with(MARK)
}

/// What is wrong with bytes that are no JSON text, by whether they are UTF-8.
pub(crate) fn syntax_mistake(bytes: &[u8], is_text: bool) -> Mistake
    requires { is_text ≡ is_utf8 bytes.now }
    ensures { result ≡ spec.syntax_mistake bytes.now }
{
    if bytes.is_empty() {
        Mistake::Empty
    } else if has_mark(bytes) {
        Mistake::ByteOrderMark
    } else if is_text {
        Mistake::NotJson
    } else {
        Mistake::NotUtf8
    }
}
