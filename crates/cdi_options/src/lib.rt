//! The words of the command line, and what they ask for.
#![tactic(auto)]

pub mod laws;
pub mod options;

pub use options::{MAX_SLICE, Mode, Options};
