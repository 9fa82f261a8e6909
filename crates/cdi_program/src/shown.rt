//! Texts that come from the user, as they are shown on a terminal.
ghost use Rattle.std.specs.Prelude.{◌≡◌, ◌++◌, string_bytes, IfOk, IsTrue, OnOk};
ghost use Rattle.cdi_program.specs.Shown as spec;

use std::alloc::{AllocError, Global};

fn is_control(c: char) -> bool
    ensures { result ≡ spec.is_control c }
{
    let code = u32::from(c);
    code < 32 || (127 <= code && code <= 159)
}

/// A control character as JSON writes it (RFC 8259).
fn control_text(alloc: Global, c: char) -> Result<String, AllocError>
    requires { IsTrue (spec.is_control c) }
    ensures { IfOk result (λ text. string_bytes text ≡ spec.control_text c) }
{
    match u32::from(c) {
        8 => String::from_str(alloc, "\\b"),
        9 => String::from_str(alloc, "\\t"),
        10 => String::from_str(alloc, "\\n"),
        12 => String::from_str(alloc, "\\f"),
        13 => String::from_str(alloc, "\\r"),
        code => format!(in alloc; "\\u00{code:02x}"),
    }
}

fn push_char(alloc: Global, c: char, line: &mut String) -> Result<(), AllocError>
    ensures { OnOk result (string_bytes line.new ≡ string_bytes line.old ++ spec.shown_char c) }
{
    if is_control(c) {
        let text = control_text(alloc, c)?;
        return line.push_str(&text);
    }
    line.push(c)
}

/// Adds a text that comes from the user to a line for a terminal: control characters are written as in JSON, so that the text
/// stays in its line and commands nothing.
pub(crate) fn push_shown(alloc: Global, text: &str, line: &mut String) -> Result<(), AllocError>
    ensures { OnOk result (string_bytes line.new ≡ string_bytes line.old ++ spec.shown_name text.now) }
{
    for c in text.chars() {
        push_char(alloc, c, line)?;
    }
    Ok(())
}
