//! The problem of bodies whose shapes name something that isn't there: a field, a method, a reference, an event, a lookup or an
//! exception.
#![tactic(auto)]

mod asked;
mod events;
mod findings;
mod injected;
mod lookups;
pub mod outside_shape;
mod own;
mod references;

pub use outside_shape::bodies_outside_shape;
