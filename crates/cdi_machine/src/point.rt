//! An injection point, and what it resolves to.
ghost use Rattle.std.specs.Prelude.{◌≡◌};

use cdi_base::{Name, Seq, Use};
use std::alloc::AllocError;

/// What a type and qualifiers resolve to (Jakarta CDI 4.0, *Unsatisfied and ambiguous dependencies*).
#[derive(Clone, Copy, Debug, PartialEq, Eq)]
pub enum Resolution {
    /// The bean with this index.
    One(u32),
    /// No bean is eligible: an unsatisfied dependency.
    Nothing,
    /// Several beans are: an ambiguous dependency.
    Many,
}

/// An injection point (Jakarta CDI 4.0, *Injection points*).
#[derive(Debug)]
pub struct Point {
    /// The required type.
    pub bean_type: Name,
    /// The required qualifiers, as they are written.
    pub qualifiers: Seq<Use>,
    /// What these resolve to.
    pub resolution: Resolution,
}

/// In one call, so that the proof of each function that owns one has one step here, and not one for each of its parts.
impl Drop for Point {
    fn drop(self) {
        let Point {
            bean_type: _bean_type,
            qualifiers: _qualifiers,
            resolution: _resolution,
        } = self;
    }
}

impl Clone for Point {
    ghost is_clone = { λ point copy. copy ≡ point };

    #[tactic(auto, using(cdi_base::proofs::Clones::same_items))]
    fn clone(&self) -> Result<Point, AllocError> {
        Ok(Point {
            bean_type: self.bean_type,
            qualifiers: self.qualifiers.clone()?,
            resolution: self.resolution,
        })
    }
}
