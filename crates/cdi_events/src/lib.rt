//! Steps of the engine: how contexts end, and how events are fired and delivered.
#![tactic(auto)]

pub mod contexts;
pub mod events;
pub mod observers;
