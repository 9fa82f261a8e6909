//! The names in steps that a deployment doesn't declare.
ghost use Rattle.std.specs.Prelude.{◌≡◌, IfOk};
ghost use Rattle.cdi_deployment.specs.Lists as lists;
ghost use Rattle.cdi_name_uses.specs.UnknownStepName as spec;

use crate::known::known_names;
use crate::step_name::StepName;
use cdi_base::{Name, Seq};
use cdi_deployment::Deployment;
use std::alloc::{AllocError, Global};

fn stands_in(names: &[Name], name: Name) -> bool
    ensures { result ≡ lists.stands_in names.now name }
{
    names.iter().any(|other| *other == name)
}

fn is_known(alloc: Global, deployment: &Deployment, used: &StepName) -> Result<bool, AllocError>
    ensures { IfOk result (λ known. known ≡ spec.is_known deployment.now used.now) }
{
    let names = known_names(alloc, deployment, used.group)?;
    Ok(stands_in(names.as_slice(), used.name))
}

/// The first of some names in steps that isn't declared as what it has to be.
pub fn first_unknown(
    alloc: Global,
    deployment: &Deployment,
    used: &[StepName],
) -> Result<Option<StepName>, AllocError>
    ensures { IfOk result (λ unknown. unknown ≡ spec.first_unknown deployment.now used.now) }
{
    for name in used {
        if !is_known(alloc, deployment, name)? {
            return Ok(Some(*name));
        }
    }
    Ok(None)
}
