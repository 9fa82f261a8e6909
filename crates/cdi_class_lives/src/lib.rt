//! What classes have for the lives of their instances, each by what its direct superclass has: the fields, the steps by which fields are
//! injected and initializers run, the callbacks, and the business methods by their names (Jakarta CDI 4.0, *Lifecycle of managed beans*,
//! *Inheritance of member-level metadata*).
//!
//! Each field, step and method is kept once, with the class that declares it. A class has the places of its fields and steps, four bytes
//! for each, and a map of its methods that shares with that of its superclass what is the same.
#![tactic(auto)]

mod codes;
pub mod life;
pub mod lives;
pub mod own_life;
mod places;
mod steps;

pub use life::ClassLife;
pub use lives::ClassLives;
pub use own_life::OwnLife;
