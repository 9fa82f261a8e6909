//! Hints for the problems that are cycles: of types, each above the next, and of dependent beans, each of which needs the next.
#![tactic(auto)]

pub mod cycle;
pub mod hierarchy;
pub mod needs;
mod told_cycle;

pub use cycle::add_needs_cycle;
pub use hierarchy::add_hierarchy;
pub use needs::{Needs, needs_of};
