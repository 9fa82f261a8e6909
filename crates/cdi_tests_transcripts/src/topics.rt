//! The topics of transcripts. A run whose words begin with one of these is about what stands below the program; all others are runs of
//! the program: see the module `words`.
//!
//! | Word | What is played | Where the words behind it are told |
//! |---|---|---|
//! | `ledger` | stories of instances, and what they break | `cdi_tests_player`: `stories` |
//! | `jobs` | the engine, with bodies that no run of the program has | `cdi_tests_calls`: `report` |
//! | `store`, `contexts`, `choices`, `observers` | calls that no run of the program makes | `cdi_tests_stores`: `calls` |
use crate::words::Program;
use cdi_tests_calls::Calls;
use cdi_tests_player::{Played, Player, Scene, Stories};
use cdi_tests_stores::StoreCalls;
use std::alloc::{AllocError, Global};

/// All that transcripts are of.
#[derive(Drop)]
pub(crate) struct Topics<'a> {
    pub(crate) program: Program<'a>,
}

impl Player for Topics<'_> {
    fn play(&self, alloc: Global, words: &[&str], scene: &Scene) -> Result<Played, AllocError> {
        match words {
            ["ledger"] => Stories.play(alloc, words, scene),
            ["jobs", ..] => Calls.play(alloc, words, scene),
            ["store" | "contexts" | "choices" | "observers", ..] => StoreCalls.play(
                alloc, words, scene,
            ),
            _ => self.program.play(alloc, words, scene),
        }
    }
}
