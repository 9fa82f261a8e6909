//! Observer resolution: which observers hear an event, and in which order (Jakarta CDI 4.0, *Observer resolution*, *Observer
//! ordering*).
#![tactic(auto)]

mod event;
pub mod group;
pub mod laws;
pub mod observers;
mod order;

pub use group::ObserverGroup;
pub use observers::Observers;
