//! The words for contexts.

/// Whether instances are made in a context (Jakarta CDI 4.0, *The active context object for a
/// scope*). A context that is gone has no status: it isn't there.
#[derive(Clone, Copy, Debug, PartialEq, Eq)]
pub enum Status {
    /// Instances are found and made.
    Open,
    /// Instances are found, and none is made: the context is being destroyed.
    Ending,
}

/// What a context has for a bean.
#[derive(Clone, Copy, Debug, PartialEq, Eq)]
pub enum Held {
    /// Its instance is being made.
    Making,
    /// The instance with this number.
    Is(u32),
}

/// The environment of a command: its request and its session by their slots. The application is in
/// every environment.
///
/// An environment is that of the contexts it was given for until one of them is gone and a later
/// `begin` gave its slot again.
#[derive(Clone, Copy, Debug, PartialEq, Eq)]
pub struct Env {
    pub request: Option<usize>,
    pub session: Option<usize>,
}
