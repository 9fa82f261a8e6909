//! A deployment with its scripts, from its bytes.
ghost use Rattle.std.specs.Prelude.{◌≡◌, ◌≤◌, length, Ok, IfOk, IfErr};
ghost use Rattle.cdi_prepare.specs.Ready as spec;
ghost use Rattle.cdi_prepare.specs.Ready.{IsRefusal, ready_of};

use crate::fault_text::{write_fault, write_script_fault};
use crate::scripts::{NamedScript, read_scripts};
use cdi_base::OrMemory;
use cdi_bodies::MAX_BODIES;
use cdi_deploy::read;
use cdi_deployment::Deployment;
use std::alloc::Global;

/// A deployment with its scripts, whose names are in its table.
#[derive(Drop)]
pub struct Prepared {
    pub deployment: Deployment,
    pub scripts: Vec<NamedScript>,
}

/// Reads the scripts of a deployment. The fault is the bytes of the line that tells the first bad one.
fn prepare_scripts(alloc: Global, deployment: Deployment) -> Result<Prepared, OrMemory<Vec<u8>>>
    ensures ok { IfOk result (λ p. spec.with_scripts deployment ≡ Ok (ready_of p)) }
    ensures err { IfErr result (IsRefusal (spec.with_scripts deployment)) }
    ensures count { IfOk result (λ p. length p.scripts.items ≡ length deployment.scripts) }
{
    let mut deployment = deployment;
    match read_scripts(alloc, &mut deployment.names, deployment.scripts.as_slice()) {
        Ok(scripts) => Ok(Prepared {
            deployment,
            scripts,
        }),
        Err(OrMemory::Fault(bad)) => {
            let line = write_script_fault(alloc, bad.name.as_str(), bad.fault)?;
            Err(OrMemory::Fault(line))
        }
        Err(OrMemory::Memory) => Err(OrMemory::Memory),
    }
}

/// Reads a deployment with its scripts, of which there are at most as many as bodies. The fault is the bytes of a line: that
/// which tells the deployment's first fault or, if it has none, its first bad script. An error is [`OrMemory::Memory`] if a
/// growth was refused.
pub fn prepare(alloc: Global, bytes: &[u8]) -> Result<Prepared, OrMemory<Vec<u8>>>
    ensures ok { IfOk result (λ p. spec.readied_in bytes.now ≡ Ok (ready_of p)) }
    ensures err { IfErr result (IsRefusal (spec.readied_in bytes.now)) }
    ensures few { IfOk result (λ p. length p.scripts.items ≤ MAX_BODIES) }
{
    match read(alloc, bytes) {
        Ok(deployment) => prepare_scripts(alloc, deployment),
        Err(OrMemory::Fault(fault)) => {
            let line = write_fault(alloc, &fault)?;
            Err(OrMemory::Fault(line))
        }
        Err(OrMemory::Memory) => Err(OrMemory::Memory),
    }
}
