//! Steps of the engine: what is called through a reference, and what the container calls with injected parameters, which are
//! constructors, initializers, producers, disposers and observers.
#![tactic(auto)]

pub mod container_calls;
pub mod parameters;
pub mod references;
