//! Where a value stands in a JSON text, and which key stands twice in an object of it; and where what a deployment has at a place
//! stands in the text that it was read from.
#![tactic(auto)]

mod declared;
mod key_set;
pub mod laws;
pub mod pointer;
pub mod position;
pub mod repeated_keys;
mod search;

pub use pointer::pointer_at;
pub use position::{Position, position_after, position_of};
pub use repeated_keys::{RepeatedKey, repeated_key};
