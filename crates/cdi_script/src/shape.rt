//! The shape of a script.
ghost use Rattle.std.specs.Prelude.{◌≡◌, IfOk};
ghost use Rattle.cdi_script.specs.Listed as spec;

use crate::script::Script;
use cdi_bodies::Shape;
use std::alloc::{AllocError, Global};

impl Script {
    /// The shape of a body with this script: it lists what the steps name, in their order and as often as they name
    /// it.
    pub fn shape_of(&self, alloc: Global) -> Result<Shape, AllocError>
        ensures { IfOk result (λ shape. shape ≡ spec.shape_of self.now) }
    {
        let mut shape = Shape::new(alloc);
        for step in self.steps.as_slice() {
            step.action.list(&mut shape)?;
        }
        Ok(shape)
    }
}
