//! Hints for the problems of a deployment: the rule that is broken, and the names that break it.
#![tactic(auto)]

mod asked;
mod at;
mod body;
mod candidate;
mod cycle;
pub mod hint;
pub mod left;
mod near;
mod point;
pub mod rule;
mod script;
mod sentence;
mod specializer;
pub mod subject;

pub use hint::{problem_hint, problem_message};
pub use left::problem_candidates;
pub use rule::rule_text;
pub use subject::Subject;
