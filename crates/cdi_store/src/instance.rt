//! What is kept of a contextual instance.

use crate::references::References;
use cdi_base::{Fields, Seq, Text, Value};

/// What an instance is of.
#[derive(Clone, Copy, Debug, PartialEq, Eq)]
pub enum Component {
    /// The bean with this index: a managed bean, or a producer, whose instance is the product.
    Bean(u32),
    /// The interceptor with this index (Jakarta Interceptors 2.1, *Interceptor Life Cycle*).
    Interceptor(u32),
}

/// A context (Jakarta CDI 4.0, *Context management for built-in scopes*). A request and a session are told by the
/// names that the commands give them.
#[derive(Debug, PartialEq, Eq, Drop)]
pub enum Context {
    Application,
    Request(Text),
    Session(Text),
}

/// Whose an instance is. It is destroyed with its owner.
#[derive(Debug, PartialEq, Eq, Drop)]
pub enum Owner {
    /// A context's: an instance of a bean with a normal scope.
    Context(Context),
    /// A dependent object of the instance with this number (Jakarta CDI 4.0, *Dependent objects*).
    Instance(u32),
    /// Of the invocation or command that obtained it, and of nothing else (Jakarta CDI 4.0,
    /// *Destruction of objects with scope @Dependent*).
    Borrower,
}

/// Where an instance is in its life.
#[derive(Clone, Copy, Debug, PartialEq, Eq)]
pub enum Phase {
    /// Its creation has begun.
    New,
    /// It is made.
    Ready,
    /// Its destruction has begun.
    Leaving,
}

/// A live instance of a bean or of an interceptor.
#[derive(Drop)]
pub struct Instance {
    pub component: Component,
    /// Whose it is; until it is ready, whose it will be.
    pub owner: Owner,
    pub phase: Phase,
    pub fields: Fields,
    /// The references of its injected fields.
    pub references: References,
    /// The value of a product, else null.
    pub value: Value,
    /// The numbers of its dependent objects, in the order of their adoption.
    pub dependents: Seq<u32>,
}
