//! The rules of required qualifiers, disposers, observers and limits of beans (Jakarta CDI 4.0, *Beans*), and all problems of beans: those of
//! a deployment in which all names are known.
#![tactic(auto)]

pub mod conditional;
pub mod disposers;
pub mod limits;
pub mod problems;
pub mod required;
pub mod tables;

pub use conditional::{ConditionalDependent, conditional_of_dependent};
pub use disposers::{TwoDisposers, UnmatchedDisposer, serves};
pub use limits::{MAX_BEANS, MAX_OBSERVERS, has_too_many};
pub use problems::bean_problems;
pub use required::has_required;
pub use tables::RuleTables;
