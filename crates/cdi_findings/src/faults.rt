//! The faults of bytes that can't be read, in words.
ghost use Rattle.std.specs.Prelude.{◌≡◌, string_bytes, IfOk};
ghost use Rattle.cdi_prepare.specs.Ready.{readied_in};
ghost use Rattle.cdi_findings.specs.Faults as spec;

use cdi_base::OrMemory;
use cdi_prepare::prepare;
use std::alloc::{AllocError, Global};
use std::str;

/// The text of a line, without its line feed.
fn line_text(line: &[u8]) -> &str
    ensures { result.now ≡ spec.line_text line.now }
{
    let (text, _line_feed) = line.split_at(line.len().saturating_sub(1));
    match str::from_utf8(text) {
        Ok(text) => text,
        Err(_) => "",
    }
}

/// The line of standard output that tells why bytes can't be read, without its line feed; nothing if they can. The one error is
/// [`AllocError`], if a growth was refused.
pub fn fault_name(alloc: Global, bytes: &[u8]) -> Result<String, AllocError>
    ensures { IfOk result
        (λ name. string_bytes name ≡ spec.fault_name (readied_in bytes.now)) }
{
    match prepare(alloc, bytes) {
        Ok(_) => Ok(String::new(alloc)),
        Err(OrMemory::Fault(line)) => String::from_str(alloc, line_text(line.as_slice())),
        Err(OrMemory::Memory) => Err(AllocError),
    }
}

/// Why bytes with this fault can't be read, where there is no hint.
pub fn unhinted_text(name: &str) -> &'static str
    ensures { result.now ≡ spec.unhinted_text name.now }
{
    if name == "TooLong" {
        return "a deployment has at most 1,048,576 bytes";
    }
    if name == "TooMany" {
        return "a deployment has at most 1,048,576 names";
    }
    "a script has at most 256 steps, and at most 1,048,576 names with its deployment"
}
