//! Calls of public functions that no run of the program makes: which deployments with bodies of their own are accepted, and the jobs
//! that a runtime carries out. They are for the transcripts of the program `cdi_tests_transcripts`; the words of a run are told in the
//! module `calls`.
//!
//! This library serves tests alone, and its calls promise nothing.
#![tactic(auto)]

pub mod calls;
mod counting;
mod entries;
mod heard;
mod jobs;
mod report;
mod runtimes;

pub use calls::Calls;
