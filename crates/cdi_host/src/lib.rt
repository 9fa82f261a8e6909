//! What the engine works upon: as traits the tables of a deployment, and what a container holds (the third part is the
//! [`Driver`](cdi_machine::Driver)); and as stacks what is under way in a running command: its invocations, what each call of it has
//! borrowed, and its running bodies.
#![tactic(auto)]

pub mod beans;
pub mod chain;
pub mod contents;
pub mod invocation;
pub mod locals;
pub mod members;
pub mod running;
pub mod stack;
pub mod tables;

pub use beans::{
    BeanHead, Code, Lifecycle, Member, Method, Observer, Point, Product, Resolution, Source, Step,
};
pub use chain::Chain;
pub use contents::Contents;
pub use invocation::Invocation;
pub use locals::Locals;
pub use members::Members;
pub use running::Running;
pub use stack::Stack;
pub use tables::Tables;
