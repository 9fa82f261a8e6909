//! What is asked of the events of a deployment: of which classes they can be fired, which observers of enabled beans hear one, with what
//! runs where they are notified, and how its qualifiers are written (Jakarta CDI 4.0, *Event types and qualifier types*, *Observer
//! resolution*, *Observer ordering*).
#![tactic(auto)]

mod event_classes;
pub mod heard;
pub mod ids;
pub mod observer_groups;
pub mod observers;
mod required;
pub mod tables;
pub mod written_form;

pub use ids::BodyIds;
pub use observer_groups::ObserverGroup;
pub use observers::PlannedObserver;
pub use tables::EventTables;
pub use written_form::written_uses;
