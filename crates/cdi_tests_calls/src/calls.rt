//! Calls that no run of the program makes, by the first word of a run: behind `jobs` the engine's, with bodies that are closures or
//! scripts, which the module `report` tells.
use crate::report::report;
use cdi_tests_player::{Played, Player, Scene};
use std::alloc::{AllocError, Global};

/// What is answered by the words of a run.
fn answers(alloc: Global, words: &[&str], scene: &Scene) -> Result<String, AllocError> {
    match words {
        ["jobs", words @ ..] => {
            let deployment = scene.whole_deployment(alloc)?;
            report(
                alloc,
                words,
                deployment.as_str().as_bytes(),
                scene.input.as_str(),
            )
        }
        _ => String::from_str(alloc, "no such run\n"),
    }
}

/// Calls of public functions, each with what it answers.
pub struct Calls;

impl Player for Calls {
    fn play(&self, alloc: Global, words: &[&str], scene: &Scene) -> Result<Played, AllocError> {
        let text = answers(alloc, words, scene)?;
        Ok(Played::well(alloc, text.into_bytes()))
    }
}
