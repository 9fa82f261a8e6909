//! Reading deployments from JSON: which bytes are one, what the first fault of others is, and what is declared in it.
#![tactic(auto)]

pub mod fault;
mod items;
pub mod laws;
mod members;
mod naming;
mod objects;
mod parts;
pub mod reading;

pub use fault::ReadFault;
pub use reading::{deployment_of, lists_of, read};
