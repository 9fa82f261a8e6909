//! The beans of a deployment that typesafe resolution leaves for what a point asks for (Jakarta CDI 4.0, *Typesafe resolution*,
//! *Unsatisfied and ambiguous dependencies*), and those that nearly have it.
#![tactic(auto)]

pub mod laws;
mod narrowed;
pub mod near;
pub mod point;
mod qualified;
pub mod tables;

pub use near::{Lack, NearBean, near_beans};
pub use point::{candidates, place_of};
pub use tables::tables_of;
