//! What is kept of the beans of a deployment for the lives of their instances, by what it declares (Jakarta CDI 4.0, *Lifecycle of managed
//! beans*, *Lifecycle of producer methods*, *Inheritance of member-level metadata*): bodies by their numbers, with what each injection point
//! resolves to. What a class has, it shares with its subclasses.
#![tactic(auto)]

pub mod bean;
mod class;
pub mod kept;
mod line;
mod own;

pub use bean::BeanLife;
pub use kept::{KeptBean, KeptBeans, KeptProduct};
