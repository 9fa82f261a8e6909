//! What a container works with at run time: the tables of its deployment, what drives it, and its world.
#![tactic(auto)]

pub mod laws;
mod refusal;
mod runtime;
mod served_tables;

pub use runtime::Runtime;
pub use served_tables::ServedTables;
