//! The world of a container: its live instances, its contexts, and what is under way in the running
//! command.
#![tactic(auto)]

mod environment;
mod making;
mod named;
pub mod world;

pub use world::World;
