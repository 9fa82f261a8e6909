//! Resolution that remembers the last answers (Jakarta CDI 4.0, *Typesafe resolution*).
#![tactic(auto)]

mod answer;
pub mod lookup;
mod value;
pub mod written;

pub use answer::Answer;
pub use lookup::Lookup;
pub use written::WrittenQuestion;
