//! Copies of what a deployment declares.
ghost use Rattle.std.specs.Prelude.{◌≡◌, IfOk};

use cdi_base::{Name, Seq, Use};
use cdi_deployment::{Field, Point};
use std::alloc::{AllocError, Global};

fn copy_uses(alloc: Global, uses: &[Use]) -> Result<Seq<Use>, AllocError>
    ensures { IfOk result (λ copies. copies ≡ uses.now) }
{
    let mut copies = Seq::empty(alloc);
    for used in uses {
        copies.push(used.clone()?)?;
    }
    Ok(copies)
}

/// The injection point of this required type and these required qualifiers.
pub(crate) fn point_of(alloc: Global, ty: Name, quals: &[Use]) -> Result<Point, AllocError>
    ensures { IfOk result (λ point. point ≡ record { ty = ty; quals = quals.now }) }
{
    Ok(Point {
        ty,
        quals: copy_uses(alloc, quals)?,
    })
}

pub(crate) fn copy_points(alloc: Global, points: &[Point]) -> Result<Seq<Point>, AllocError>
    ensures { IfOk result (λ copies. copies ≡ points.now) }
{
    let mut copies = Seq::empty(alloc);
    for point in points {
        copies.push(point_of(alloc, point.ty, point.quals.as_slice())?)?;
    }
    Ok(copies)
}

fn copy_field(field: &Field) -> Result<Field, AllocError>
    ensures { IfOk result (λ copied. copied ≡ field.now) }
{
    Ok(Field {
        name: field.name,
        value: field.value.clone()?,
    })
}

pub(crate) fn copy_fields(alloc: Global, fields: &[Field]) -> Result<Seq<Field>, AllocError>
    ensures { IfOk result (λ copies. copies ≡ fields.now) }
{
    let mut copies = Seq::empty(alloc);
    for field in fields {
        copies.push(copy_field(field)?)?;
    }
    Ok(copies)
}
