//! The problems of a deployment, from its bytes.
ghost use Rattle.std.specs.Prelude.{◌≡◌, ◌≤◌, length, IfOk, IsSomeAnd};
ghost use Rattle.cdi_prepare.specs.Ready.{readied_in, ready_of};
ghost use Rattle.cdi_report.specs.Reviews as spec;
ghost use Rattle.cdi_script.specs.Next.{next_of};

use cdi_base::{Act, Fields, OrMemory, Seq};
use cdi_bodies::{AddError, Bodies, Body, MAX_BODIES, View};
use cdi_check::check;
use cdi_deployment::Deployment;
use cdi_name_uses::ScriptNames;
use cdi_prepare::{NamedScript, Prepared, prepare};
use cdi_problems::Problem;
use std::alloc::{AllocError, Global};

/// A deployment that was read with its scripts, and its problems.
#[derive(Drop)]
pub struct Review {
    pub deployment: Deployment,
    /// The names that the steps of its scripts use, script by script.
    pub scripts: Seq<ScriptNames>,
    pub problems: Seq<Problem>,
}

/// The names that the steps of scripts use.
fn names_of(alloc: Global, scripts: &[NamedScript]) -> Result<Seq<ScriptNames>, AllocError>
    ensures { IfOk result (λ names. names ≡ spec.names_of scripts.now) }
{
    let mut names = Seq::empty(alloc);
    for named in scripts {
        names.push(ScriptNames::of(alloc, named.name, &named.script)?)?;
    }
    Ok(names)
}

/// A deployment that was read with its scripts, which are its bodies, and its problems.
pub(crate) fn review_of(alloc: Global, prepared: Prepared) -> Result<Review, AllocError>
    requires { length prepared.scripts.items ≤ MAX_BODIES }
    ensures { IfOk result (spec.IsReview (ready_of prepared)) }
{
    let Prepared {
        deployment,
        scripts,
    } = prepared;
    let names = names_of(alloc, scripts.as_slice())?;
    let mut bodies = Bodies::new(alloc);
    for named in scripts {
        let NamedScript { name, script } = named;
        if bodies.find(name).is_some() {
            continue;
        }
        let shape = script.shape_of(alloc)?;
        let body: Body = Box::new(
            alloc,
            move |fields: &Fields, view: &View| -> Result<Act, AllocError>
                ensures { IfOk result (λ act. act ≡ next_of script fields.now view.now) }
            { script.next(alloc, fields, view) },
        )?;
        match bodies.add(name, shape, body) {
            Ok(_) => {}
            Err(AddError::Memory(_)) => return Err(AllocError),
            Err(AddError::Repeated(_)) => unreachable!(),
            Err(AddError::Full(_)) => unreachable!(),
        }
    }
    let problems = check(alloc, &deployment, &bodies)?;
    Ok(Review {
        deployment,
        scripts: names,
        problems,
    })
}

fn some_review(alloc: Global, prepared: Prepared) -> Result<Option<Review>, AllocError>
    requires { length prepared.scripts.items ≤ MAX_BODIES }
    ensures { IfOk result (λ review. IsSomeAnd review (spec.IsReview (ready_of prepared))) }
{
    Ok(Some(review_of(alloc, prepared)?))
}

/// The deployment that bytes are, and its problems (Jakarta CDI 4.0, *Problems detected automatically by the container*); none if it
/// can't be read, or one of its scripts can't.
pub fn review_bytes(alloc: Global, bytes: &[u8]) -> Result<Option<Review>, AllocError>
    ensures { IfOk result (spec.Reviews (readied_in bytes.now)) }
{
    match prepare(alloc, bytes) {
        Ok(prepared) => some_review(alloc, prepared),
        Err(OrMemory::Fault(_)) => Ok(None),
        Err(OrMemory::Memory) => Err(AllocError),
    }
}
