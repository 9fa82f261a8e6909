//! What is wrong with a deployment, and what is warned of, as lines of JSON; where problems stand in its text; and what the words mean
//! that the program writes: faults, warnings, problems, refusals, causes of a cut, built-in exceptions, replies and the entries of a
//! trace.
#![tactic(auto)]

pub mod explaining;
pub mod explanation;
pub mod faults;
mod finding;
pub mod findings;
pub mod hint_tables;
pub mod laws;
pub mod locating;
pub mod table;

pub use explaining::{explain, unknown_text};
pub use explanation::{Explanation, Subject};
pub use faults::{fault_name, unhinted_text};
pub use findings::{Findings, findings_in, has_problem};
pub use hint_tables::HintTables;
pub use locating::position_of_problem;
pub use table::explanations;
