//! The faults of a deployment and of its scripts, as lines.
ghost use Rattle.std.specs.Prelude.{◌≡◌, IfOk, string_bytes};
ghost use Rattle.cdi_prepare.specs.FaultText as spec;

use cdi_deploy::ReadFault;
use cdi_script::ScriptFault;
use std::alloc::{AllocError, Global};

fn fault_text(alloc: Global, fault: &ReadFault) -> Result<String, AllocError>
    ensures { IfOk result (λ text. string_bytes text ≡ spec.fault_text fault.now) }
{
    match fault {
        ReadFault::TooLong => String::from_str(alloc, "TooLong"),
        ReadFault::NotJson => String::from_str(alloc, "NotJson"),
        ReadFault::BadNumber => String::from_str(alloc, "BadNumber"),
        ReadFault::Shape(path) => {
            let path = path.as_str();
            format!(in alloc; "Shape {path}")
        }
        ReadFault::BadName => String::from_str(alloc, "BadName"),
        ReadFault::TooMany => String::from_str(alloc, "TooMany"),
    }
}

/// The line of a deployment that was not read: its fault, and the path of a wrong place. The one error is
/// [`AllocError`], if a growth was refused.
pub fn write_fault(alloc: Global, fault: &ReadFault) -> Result<Vec<u8>, AllocError>
    ensures { IfOk result (λ line. line.items ≡ spec.fault_line fault.now) }
{
    let text = fault_text(alloc, fault)?;
    Ok(format!(in alloc; "{text}\n")?.into_bytes())
}

fn script_fault_word(fault: ScriptFault) -> &'static str
    ensures { result.now ≡ spec.script_fault_word fault }
{
    match fault {
        ScriptFault::BadStep => "BadStep",
        ScriptFault::TooLong => "TooLong",
        ScriptFault::Full => "Full",
    }
}

/// The line of a deployment with a bad script: the name of the script and its fault. The one error is
/// [`AllocError`], if a growth was refused.
pub fn write_script_fault(
    alloc: Global,
    name: &str,
    fault: ScriptFault,
) -> Result<Vec<u8>, AllocError>
    ensures { IfOk result (λ line. line.items ≡ spec.script_line name.now fault) }
{
    let word = script_fault_word(fault);
    Ok(format!(in alloc; "script {name} {word}\n")?.into_bytes())
}
