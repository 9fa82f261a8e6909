//! A container: a deployment that is accepted is started, and then commands are answered, or the lines of an input.
#![tactic(auto)]

mod acceptance;
mod asked;
mod container;
mod copies;
pub mod known_lines;
pub mod laws;
pub mod left;
mod reply;
mod session;
mod slices;
mod turns;

pub use acceptance::{Unaccepted, accept};
pub use container::Container;
pub use session::Session;
pub use turns::{Turned, Turns};
