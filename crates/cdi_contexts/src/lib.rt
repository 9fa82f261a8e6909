//! The contexts of a container: the application, the requests and the sessions.
#![tactic(auto)]

pub mod context;
pub mod contexts;
mod group;
mod places;
mod table;

pub use context::{Env, Held, Status};
pub use contexts::{BeginError, Contexts, MAX_REQUESTS, MAX_SESSIONS};
