//! The words of the runs of transcripts: those of the program, or others, for what stands below it or beside it.
//!
//! | Words | What is played |
//! |---|---|
//! | `cdi ..` | the program; a run also by turns of 1, 2, 3 and 1,000 entries |
//! | `limits DEPTH TICKS` | what stands below it, under these limits |
//! | `over ..`, `blanks ..`, `room ..`, `bytes ..` | one of these over other streams: see the module `streams` |
//! | `numbered COUNT ..` | one of these with many items: see the module `numbered` |
//! | `sought ..` | one of these, without an input: whether its output has each part of the input, of which each ends in `|` and a line feed |
//! | `unknown WHY` | the program where its words are no text, or where there is no memory for them |
//! | `front PATH` | how many bytes the program reads of a file of the machine |
//! | `faults`, `problems` | lines that were written by hand: see the module `lines` |
use crate::lines::{fault_lines, problem_lines};
use crate::numbered::play_numbered;
use crate::program::run_without_words;
use crate::streams::{Run, bytes_of, play_blanks, play_over};
use cdi_program::program::MAX_READ;
use cdi_program::{Files, HostFiles, WordsError};
use cdi_tests_player::{Played, Player, Scene};
use std::alloc::{AllocError, Global};
use std::str;

/// Whether a text has each part of another.
fn part_lines(alloc: Global, text: &str, parts: &str) -> Result<String, AllocError> {
    let mut lines = String::new(alloc);
    for part in parts.strip_suffix("|\n").unwrap_or(parts).split("|\n") {
        let has = if text.contains(part) { "yes" } else { "no" };
        writeln!(lines, "{has}")?;
    }
    Ok(lines)
}

/// What a run without an input comes to, with what its output has in place of it.
fn play_sought(run: Run, parts: &str) -> Result<Played, AllocError> {
    let played = run.over(b"".as_slice());
    let text = str::from_utf8(&played.output).unwrap_or("");
    let lines = part_lines(run.alloc, text, parts)?;
    Ok(Played {
        status: played.status,
        output: lines.into_bytes(),
        errors: played.errors,
    })
}

/// What a run comes to of a deployment and an input that are no text.
fn play_bytes(
    alloc: Global,
    words: &[&str],
    deployment: &str,
    input: &str,
) -> Result<Played, AllocError> {
    let deployment = bytes_of(alloc, deployment)?;
    let input = bytes_of(alloc, input)?;
    match words {
        ["over", kind, words @ ..] => {
            let bytes = deployment.as_slice();
            play_over(
                Run {
                    alloc,
                    words,
                    bytes,
                },
                kind,
                input.as_slice(),
            )
        }
        _ => Ok(Played::well(alloc, Vec::new(alloc))),
    }
}

/// How many bytes the program reads of a file, or that it can't.
fn front_line(alloc: Global, files: &impl Files, path: &str) -> Result<String, AllocError> {
    match files.front(alloc, path, MAX_READ) {
        Ok(bytes) => {
            let count = bytes.len();
            format!(in alloc; "{count}\n")
        }
        Err(_) => String::from_str(alloc, "none\n"),
    }
}

fn error_of(why: &str) -> WordsError {
    match why {
        "memory" => WordsError::Memory,
        _ => WordsError::NotText,
    }
}

/// What is played that has no deployment.
fn play_beside(alloc: Global, words: &[&str]) -> Result<Played, AllocError> {
    match words {
        ["faults"] => Ok(Played::well(alloc, fault_lines(alloc)?)),
        ["problems"] => Ok(Played::well(alloc, problem_lines(alloc)?)),
        ["unknown", why] => Ok(run_without_words(alloc, error_of(why))),
        _ => {
            let output = String::from_str(alloc, "nothing has these words\n")?;
            Ok(Played::well(alloc, output.into_bytes()))
        }
    }
}

/// The run of words of the program over a deployment.
fn run_of<'a>(alloc: Global, words: &'a [&'a str], deployment: &'a str) -> Run<'a> {
    Run {
        alloc,
        words,
        bytes: deployment.as_bytes(),
    }
}

/// What is played of a deployment by the words of the program, over streams or with many items.
fn play_words(
    alloc: Global,
    words: &[&str],
    deployment: &str,
    input: &str,
) -> Result<Played, AllocError> {
    match words {
        ["cdi" | "limits", ..] => run_of(alloc, words, deployment).by_turns(input.as_bytes()),
        ["over", kind, words @ ..] => {
            let run = run_of(alloc, words, deployment);
            play_over(run, kind, input.as_bytes())
        }
        ["sought", words @ ..] => play_sought(run_of(alloc, words, deployment), input),
        ["blanks", count, words @ ..] => {
            let run = run_of(alloc, words, deployment);
            Ok(play_blanks(run, count.parse().unwrap_or(0)))
        }
        ["room", count, words @ ..] => {
            let run = run_of(alloc, words, deployment);
            run.with_room(input.as_bytes(), count.parse().unwrap_or(0))
        }
        ["bytes", words @ ..] => play_bytes(alloc, words, deployment, input),
        ["numbered", count, words @ ..] => {
            let count = count.parse().unwrap_or(0);
            play_numbered(alloc, words, deployment, input, count)
        }
        _ => play_beside(alloc, words),
    }
}

/// The program `cdi`, on a machine with files.
#[derive(Drop)]
pub(crate) struct Program<'a> {
    pub(crate) files: HostFiles<'a>,
}

impl Player for Program<'_> {
    fn play(&self, alloc: Global, words: &[&str], scene: &Scene) -> Result<Played, AllocError> {
        let deployment = scene.whole_deployment(alloc)?;
        match words {
            ["front", path] => Ok(Played::well(
                alloc,
                front_line(alloc, &self.files, path)?.into_bytes(),
            )),
            _ => play_words(alloc, words, deployment.as_str(), scene.input.as_str()),
        }
    }
}
