//! What a chooser answers, behind the word `choices`: it takes the candidate at the number of entries, counted round. The lines are those
//! of the module `lines`: a call is a number of candidates and one of entries, and is answered by the place of the one that is chosen.
ghost use Rattle.std.specs.Prelude.{◌≡◌, ◌<◌, ◌%◌};

use crate::lines::{Answering, answers_to_lines};
use crate::words::number;
use cdi_bodies::{Choice, Chooser};
use std::alloc::{AllocError, Global};

fn push_choice(
    text: &mut String,
    chooser: &Chooser,
    count: u32,
    entries: u64,
) -> Result<(), AllocError> {
    if count == 0 {
        return text.push_str("no candidate");
    }
    let chosen = chooser.choose(count, entries);
    write!(text, "{chosen}")
}

impl Answering for Chooser {
    fn answer(
        &mut self,
        _alloc: Global,
        words: &[&str],
        text: &mut String,
    ) -> Result<(), AllocError> {
        match words {
            [count, entries] => push_choice(
                text,
                self,
                number(count),
                entries.parse().unwrap_or(0),
            ),
            _ => text.push_str("no such line"),
        }
    }
}

/// What the chooser answers to each line.
pub(crate) fn choices_answers(alloc: Global, input: &str) -> Result<String, AllocError> {
    let choice: Choice = Box::new(
        alloc,
        |count: u32, entries: u64| -> u32
            requires { 0 < count }
            ensures { result ≡ entries % count }
        { (entries % u64::from(count)) as u32 },
    )?;
    answers_to_lines(alloc, &mut Chooser::new(choice), input)
}
