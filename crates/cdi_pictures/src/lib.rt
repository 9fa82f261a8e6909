//! The picture of a deployment, as Graphviz's language has it: the beans, what their injection points resolve to, the producers, the
//! observers, the interceptors in their order, and the problems (Jakarta CDI 4.0, *Typesafe resolution*, *Problems detected
//! automatically by the container*).
#![tactic(auto)]

mod asker;
mod beans;
mod edge;
mod events;
pub mod graph;
mod interceptors;
pub mod laws;
mod points;
mod problems;
mod producers;
pub mod subject;

pub use graph::picture;
pub use subject::Pictured;
