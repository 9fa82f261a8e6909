//! Calls of what holds instances, of choosers and of observers, by the first word of a run.
//!
//! | Words | What is called | Module |
//! |---|---|---|
//! | `store FIRST` | a store whose first instance has this number | `store` |
//! | `contexts` | the contexts at the boot | `contexts` |
//! | `choices` | a chooser | `choices` |
//! | `observers` | who hears the events of a deployment | `observers` |
use crate::choices::choices_answers;
use crate::contexts::contexts_answers;
use crate::observers::observers_answers;
use crate::store::store_answers;
use crate::words::number;
use cdi_tests_player::{Played, Player, Scene};
use std::alloc::{AllocError, Global};

/// What is answered by the words of a run.
fn answers(alloc: Global, words: &[&str], scene: &Scene) -> Result<String, AllocError> {
    let input = scene.input.as_str();
    match words {
        ["store", first] => store_answers(alloc, number(first), input),
        ["contexts"] => contexts_answers(alloc, input),
        ["choices"] => choices_answers(alloc, input),
        ["observers"] => observers_answers(alloc, scene),
        _ => String::from_str(alloc, "no such run\n"),
    }
}

/// Calls of public functions, each with what it answers.
pub struct StoreCalls;

impl Player for StoreCalls {
    fn play(&self, alloc: Global, words: &[&str], scene: &Scene) -> Result<Played, AllocError> {
        let text = answers(alloc, words, scene)?;
        Ok(Played::well(alloc, text.into_bytes()))
    }
}
