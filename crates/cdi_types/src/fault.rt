//! Why the types of a deployment have no table.
use thiserror::Error;

/// Why the types of a deployment have no table.
#[derive(Clone, Copy, Debug, PartialEq, Eq, Error)]
pub enum TypesFault {
    /// A type is its own proper supertype.
    #[error("a type is its own supertype")]
    Cycle,
    /// A name that stands above a type is no type, and no type is its own proper supertype.
    #[error("a supertype is unknown")]
    Unknown,
}
