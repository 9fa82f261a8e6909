//! Calls of stores, contexts, choosers and observers, which no run of the program makes. They are for the transcripts of the program
//! `cdi_tests_transcripts`; the words of a run are told in the module `calls`.
//!
//! This library serves tests alone, and its calls promise nothing.
#![tactic(auto)]

pub mod calls;
mod choices;
mod context_changes;
mod context_looks;
mod contexts;
mod environments;
mod lines;
mod observers;
mod store;
mod words;

pub use calls::StoreCalls;
