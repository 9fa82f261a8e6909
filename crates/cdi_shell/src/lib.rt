//! Runs a deployment on command lines.
#![tactic(auto)]

pub mod drive;
pub mod ending;
pub mod laws;

pub use ending::Ending;
