//! The program below `main`: from the words of the command line to the exit status.
#![tactic(auto)]

mod advising;
mod drawing;
mod explaining;
pub mod files;
mod input;
mod lines;
pub mod program;
mod shown;
pub mod status;
mod telling;
pub mod words;

pub use files::{Files, HostFiles, Opener};
pub use program::run_program;
pub use words::{WordsError, host_words};
