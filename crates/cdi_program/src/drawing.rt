//! The drawing of a deployment.
ghost use Rattle.std.specs.Prelude.{IfOk, IsSomeAnd};
ghost use Rattle.cdi_prepare.specs.Ready.{readied_in};
ghost use Rattle.cdi_program.specs.Drawings as spec;

use cdi_candidates::tables_of;
use cdi_findings::has_problem;
use cdi_pictures::{Pictured, picture};
use cdi_report::{Review, review_bytes};
use std::alloc::{AllocError, Global};

/// The drawing of a deployment.
#[derive(Drop)]
pub(crate) struct Drawing {
    /// Its picture.
    pub text: String,
    /// Whether it has a problem.
    pub is_refused: bool,
}

fn review_drawing(alloc: Global, review: Review) -> Result<Option<Drawing>, AllocError>
    ensures { IfOk result (λ drawing. IsSomeAnd drawing
        (spec.IsDrawingWith review.deployment review.problems)) }
{
    let Review {
        deployment,
        scripts: _,
        problems,
    } = review;
    let made = tables_of(alloc, &deployment)?;
    let tables = made.as_ref();
    let subject = Pictured {
        deployment: &deployment,
        tables,
        problems: problems.as_slice(),
    };
    Ok(Some(Drawing {
        text: picture(alloc, &subject)?,
        is_refused: has_problem(problems.as_slice()),
    }))
}

/// The drawing of the deployment that bytes are, with its problems; none if it can't be read, or one of its scripts can't.
pub(crate) fn drawing_in(alloc: Global, bytes: &[u8]) -> Result<Option<Drawing>, AllocError>
    ensures { IfOk result (spec.IsDrawing (readied_in bytes.now)) }
{
    match review_bytes(alloc, bytes) {
        Ok(Some(review)) => review_drawing(alloc, review),
        Ok(None) => Ok(None),
        Err(error) => Err(error),
    }
}
