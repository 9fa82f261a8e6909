//! Paths in finite directed graphs: which node reaches which.
#![tactic(auto)]

mod bit_row;
pub mod cycles;
mod finish_order;
pub mod found_cycle;
pub mod path_laws;
pub mod reachability;
mod reversed;
mod walk;

pub use cycles::Cycles;
pub use found_cycle::cycle_through;
pub use reachability::Reachability;
