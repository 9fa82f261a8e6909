//! Reading a deployment: its faults in their order, and then its lists.
ghost use Rattle.std.specs.Prelude.{◌≡◌, IsTrue};
ghost use Rattle.serde_json.specs.View.{view};
ghost use Rattle.cdi_base.specs.Reading.{Gives, IsFault};
ghost use Rattle.cdi_deploy.specs.Reading as spec;

use crate::fault::ReadFault;
use crate::naming::add_names;
use crate::objects::lists_in;
use cdi_base::{Names, OrMemory};
use cdi_deployment::Deployment;
use cdi_deployment::limits::is_within;
use cdi_form::{Kind, Part, first_bad_name, numbers_fit, read_json, wrong};
use serde_json::Value as Json;
use std::alloc::Global;

/// The most bytes of a deployment.
pub const MAX_BYTES: usize = 1_048_576;

/// What stands at the root.
const ROOT: Part = Part::Object(Kind::Deployment);

/// The lists of a JSON value that is of the form of a deployment: the only fault is that its names are too many for a
/// table.
#[tactic(auto, unfolding(crate::specs::Reading::lists_of))]
pub fn lists_of(alloc: Global, value: &Json) -> Result<Deployment, OrMemory<ReadFault>>
    ensures { Gives (λ d. d) result (spec.lists_of (view value.now)) }
{
    let mut names = Names::with_built_in(alloc)?;
    add_names(&mut names, value, ROOT)?;
    Ok(lists_in(alloc, names, value)?)
}

/// The deployment that a JSON value declares, or its first fault in the order of [`ReadFault`]. An error is
/// [`OrMemory::Memory`] where a growth was refused.
#[tactic(auto, unfolding(crate::specs::Reading::deployment_of))]
pub fn deployment_of(alloc: Global, value: &Json) -> Result<Deployment, OrMemory<ReadFault>>
    ensures { Gives (λ d. d) result (spec.deployment_of (view value.now)) }
{
    if !numbers_fit(value) {
        return Err(OrMemory::Fault(ReadFault::BadNumber));
    }
    if let Some(path) = wrong(alloc, value, ROOT)? {
        return Err(OrMemory::Fault(ReadFault::Shape(path)));
    }
    if first_bad_name(value, ROOT).is_some() {
        return Err(OrMemory::Fault(ReadFault::BadName));
    }
    let deployment = lists_of(alloc, value)?;
    if !is_within(&deployment) {
        return Err(OrMemory::Fault(ReadFault::TooMany));
    }
    Ok(deployment)
}

/// Reads a deployment: gives what the bytes declare, or the first fault that holds of them in the order of
/// [`ReadFault`]. An error is [`OrMemory::Memory`] where a growth was refused: it never is in place of
/// [`ReadFault::TooLong`], nor of [`ReadFault::NotJson`] for bytes that aren't UTF-8, as nothing grows there.
#[tactic(auto, unfolding(crate::specs::Reading::deployment_in))]
pub fn read(alloc: Global, bytes: &[u8]) -> Result<Deployment, OrMemory<ReadFault>>
    ensures gives { Gives (λ d. d) result (spec.deployment_in bytes.now) }
    ensures too_long { IsTrue (spec.is_too_long bytes.now) → IsFault result ReadFault.TooLong }
    ensures no_text { IsTrue (spec.is_no_text bytes.now) → IsFault result ReadFault.NotJson }
{
    if bytes.len() > MAX_BYTES {
        return Err(OrMemory::Fault(ReadFault::TooLong));
    }
    let Some(value) = read_json(alloc, bytes)? else {
        return Err(OrMemory::Fault(ReadFault::NotJson));
    };
    deployment_of(alloc, &value)
}
