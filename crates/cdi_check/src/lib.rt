//! All problems of a deployment with its registered bodies (Jakarta CDI 4.0, *Problems detected automatically by the container*).
#![tactic(auto)]

mod bean_rules;
mod late;
pub mod laws;
mod settings;
mod tiers;

pub use tiers::{check, late_problems};
