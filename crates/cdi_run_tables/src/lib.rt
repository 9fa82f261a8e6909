//! What the machine asks of a deployment: its beans with the plans of their instances, its enabled interceptors, what types and
//! qualifiers resolve to, who hears an event, what can be fired and thrown, and what bodies look up (Jakarta CDI 4.0, *Beans*, *Typesafe resolution*;
//! Jakarta Interceptors 2.1, *Enabling Interceptors*).
#![tactic(auto)]

mod asked;
mod events;
mod exceptions;
mod firing;
mod index;
mod interceptor_steps;
mod interceptors;
mod lookups;
mod managed;
mod numbered;
mod observers;
pub mod parts;
pub mod planned;
mod sizes;
pub mod tables;
mod well_formed;

pub use planned::PlacedBean;
pub use tables::RunTables;
