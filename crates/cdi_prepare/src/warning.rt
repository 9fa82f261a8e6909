//! What is told of the bytes of a deployment beside what is wrong with it.
ghost use Rattle.std.specs.Prelude.{◌≡◌, option_map, IsTrue, IsOk, IfOk, IfSome};
ghost use Rattle.cdi_deploy.specs.Reading.{is_too_long};
ghost use Rattle.cdi_positions.specs.Position.{IsPositionIn};
ghost use Rattle.cdi_prepare.specs.Warning as spec;

use cdi_deploy::reading::MAX_BYTES;
use cdi_positions::{RepeatedKey, repeated_key};
use std::alloc::{AllocError, Global};

/// The first key of the bytes of a deployment that stands twice in one object, if they are a JSON text of at most [`MAX_BYTES`]
/// bytes, whether the deployment is refused or not: reading takes the last value of such a key, and passes over the others. An
/// error where a growth was refused, which is not for too many bytes.
pub fn warning_for(alloc: Global, bytes: &[u8]) -> Result<Option<RepeatedKey>, AllocError>
    ensures key { IfOk result (λ found. option_map (λ r. r.key) found ≡ spec.lost_key bytes.now) }
    ensures position { IfOk result
        (λ found. IfSome found (λ r. IsPositionIn bytes.now r.position)) }
    ensures too_long { IsTrue (is_too_long bytes.now) → IsOk result }
{
    if bytes.len() > MAX_BYTES {
        return Ok(None);
    }
    repeated_key(alloc, bytes)
}
