//! The lines on standard error that name a file or a word.
ghost use Rattle.std.specs.Prelude.{◌≡◌, ◌++◌, string_bytes, IfOk, OnOk};
ghost use Rattle.cdi_program.specs.Lines as spec;

use crate::shown::push_shown;
use std::alloc::{AllocError, Global};
use std::fmt::Display;

/// Adds the line that names a cause that lies in a file, or in a word.
pub(crate) fn add_line(
    alloc: Global,
    file: &str,
    cause: &str,
    lines: &mut String,
) -> Result<(), AllocError>
    ensures { OnOk result (string_bytes lines.new
        ≡ string_bytes lines.old ++ spec.file_line file.now cause.now) }
{
    lines.push_str("cdi: ")?;
    push_shown(alloc, file, lines)?;
    lines.push_str(": ")?;
    lines.push_str(cause)?;
    lines.push_str("\n")
}

/// That line.
pub(crate) fn file_line(alloc: Global, file: &str, cause: &str) -> Result<String, AllocError>
    ensures { IfOk result (λ line. string_bytes line ≡ spec.file_line file.now cause.now) }
{
    let mut line = String::new(alloc);
    add_line(alloc, file, cause, &mut line)?;
    Ok(line)
}

/// The same for a cause as it is written.
pub(crate) fn file_line_of<C: Display>(
    alloc: Global,
    file: &str,
    cause: &C,
) -> Result<String, AllocError>
    ensures { IfOk result
        (λ line. spec.IsFileLine file.now (C.output cause.now) (string_bytes line)) }
{
    let cause = cause.to_string(alloc)?;
    file_line(alloc, file, &cause)
}
