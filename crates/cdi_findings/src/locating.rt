//! Where in the text of a deployment a problem stands.
ghost use Rattle.std.specs.Prelude.{IfOk, IfSome};
ghost use Rattle.cdi_positions.specs.Position.{IsPositionIn};

use cdi_base::Place;
use cdi_deployment::Deployment;
use cdi_positions::{Position, pointer_at, position_of};
use cdi_problems::Problem;
use std::alloc::{AllocError, Global};

/// The position of what stands at a place.
fn position_at(
    alloc: Global,
    bytes: &[u8],
    deployment: &Deployment,
    place: &Place,
) -> Result<Option<Position>, AllocError>
    ensures { IfOk result (λ position. IfSome position (IsPositionIn bytes.now)) }
{
    match pointer_at(alloc, deployment, place)? {
        Some(pointer) => Ok(position_of(bytes, &pointer)),
        None => Ok(None),
    }
}

/// The position of what has a problem in the bytes from which its deployment was read, if it is known. The one error is
/// [`AllocError`], if a growth was refused.
pub fn position_of_problem(
    alloc: Global,
    bytes: &[u8],
    deployment: &Deployment,
    problem: &Problem,
) -> Result<Option<Position>, AllocError>
    ensures { IfOk result (λ position. IfSome position (IsPositionIn bytes.now)) }
{
    match &problem.place {
        Some(place) => position_at(alloc, bytes, deployment, place),
        None => Ok(None),
    }
}
