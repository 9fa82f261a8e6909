//! The contextual instances of a container, each under a key and a number; and slots by names.
#![tactic(auto)]

mod changes;
mod dependents;
pub mod errors;
pub mod instance;
pub mod key;
pub mod name_index;
mod number_index;
pub mod numbered;
pub mod references;
pub mod store;

pub use errors::{ChangeError, MakeError, Stale};
pub use instance::{Component, Context, Instance, Owner, Phase};
pub use key::Key;
pub use name_index::NameIndex;
pub use references::{Reference, References};
pub use store::Store;
