//! A registered body.
ghost use Rattle.cdi_bodies.specs.Shape.{KeepsShape};

use crate::shape::Shape;
use crate::view::View;
use cdi_base::{Act, Fields, Name};
use std::alloc::AllocError;

/// A body: what it does next, at the fields of its instance and what it has seen.
pub type Body = Box<dyn Fn(&Fields, &View) -> Result<Act, AllocError>>;

/// A body under its name, with the shape that each of its acts lies in.
#[derive(Drop)]
pub struct Entry {
    pub(crate) name: Name,
    pub(crate) shape: Shape,
    pub(crate) body: Body,
    pub(crate) ghost callable: { Body.IsAlwaysCallable body },
    pub(crate) ghost within: { KeepsShape (Body.post body) shape },
}
