//! Transcripts: runs as they are written in files, each with what it has to write, and how they are played.
//!
//! This library serves tests alone, and its calls promise nothing: a transcript that is misread shows as a run that doesn't go as
//! it is written, or as a wrong number of runs.
#![tactic(auto)]

pub mod ledger;
pub mod limits;
pub mod marks;
pub mod playing;
pub mod scene;
pub mod stories;

pub use ledger::{Beans, Ledger};
pub use playing::{Played, Player, play_files};
pub use scene::Scene;
pub use stories::Stories;
