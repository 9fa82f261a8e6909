//! What is wrong with a JSON value that is not of the form of a deployment, or no step of a script, in words.
#![tactic(auto)]

pub mod forms;
pub mod laws;
pub mod mistake;
pub mod names;
pub mod numbers;
pub mod steps;
pub mod words;
pub mod written;
mod wrong_step;

pub use forms::form_mistake;
pub use mistake::{FormMistake, PlacedMistake};
pub use names::name_mistake;
pub use numbers::number_mistake;
pub use steps::step_mistake;
pub use words::{UnknownWord, unknown_word};
pub use written::{Written, WrittenNumber, written_of};
pub use wrong_step::StepMistake;
