//! What a body sees of its run.
use crate::answers::Answers;
use cdi_base::{Seq, Value};

/// What a body sees beside the fields of its instance.
#[derive(Debug, Drop)]
pub struct View {
    /// The parameters when the body started: the values of a method, the event's value of an observer, the
    /// product's value of a disposer, the invocation's parameters of an interceptor. Empty for all others.
    pub args: Seq<Value>,
    /// What the acts of the body were answered so far, oldest first.
    pub answers: Answers,
}
