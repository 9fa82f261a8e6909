//! Registered bodies, each under a name and with the shape that its acts lie in, and the chooser.
#![tactic(auto)]

pub mod answers;
pub mod chooser;
pub mod entry;
pub mod error;
pub mod laws;
pub mod shape;
pub mod table;
pub mod view;

pub use answers::Answers;
pub use chooser::{Choice, Chooser};
pub use entry::Body;
pub use error::AddError;
pub use shape::{FiredEvent, Lookup, MethodCall, OwnCall, Shape};
pub use table::{Bodies, BodyId, MAX_BODIES};
pub use view::View;
