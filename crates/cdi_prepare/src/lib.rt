//! Makes a deployment ready: reads it with its scripts, or tells by a line why it can't be read, and by a hint what is wrong
//! with one that is refused. Warns of a key whose value doesn't count.
#![tactic(auto)]

mod bad_steps;
pub mod fault_text;
pub mod hint;
pub mod hint_laws;
pub mod hint_search;
mod item_lists;
mod long_lists;
pub mod reading;
pub mod scripts;
mod syntax;
pub mod warning;

pub use hint::{Hint, Mistake};
pub use hint_search::hint_for;
pub use reading::{Prepared, prepare};
pub use scripts::NamedScript;
pub use warning::warning_for;
