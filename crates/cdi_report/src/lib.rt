//! Tells all problems of a deployment, or that it is accepted, without running it; and what holds of every deployment that was read.
#![tactic(auto)]

pub mod laws;
pub mod problem_lines;
pub mod reporting;
pub mod reviewing;
pub mod verdict;

pub use reporting::report;
pub use reviewing::{Review, review_bytes};
pub use verdict::Verdict;
