//! By which steps an instance of a bean is created, and what runs where it is destroyed (Jakarta CDI 4.0, *Lifecycle of managed beans*,
//! *Lifecycle of producer methods*, *Lifecycle of producer fields*).
#![tactic(auto)]

mod codes;
mod copies;
pub mod laws;
mod observer;
pub mod own_parts;
pub mod planner;
mod product;
mod steps;

pub use own_parts::OwnParts;
pub use planner::Planner;
