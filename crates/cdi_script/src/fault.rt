//! What is wrong with a script.
use thiserror::Error;

/// Why a value is no script: the first of these that holds, in this order, wherever it stands.
#[derive(Clone, Copy, Debug, PartialEq, Eq, Error)]
pub enum ScriptFault {
    /// The value is no array, or one of its items is no step.
    #[error("BadStep")]
    BadStep,
    /// There are more than [`MAX_STEPS`](crate::MAX_STEPS) steps.
    #[error("TooLong")]
    TooLong,
    /// The table of names has no room for a name of the script.
    #[error("Full")]
    Full,
}
