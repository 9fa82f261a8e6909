//! Playing the runs of transcripts, and telling in what they differ from what is written of them.
use crate::scene::{Scene, scenes_of};
use std::alloc::{AllocError, Global};
use std::process::ExitCode;
use std::rt::{Env, Files};
use std::{env, fs, io, str};

/// How a run ended, and what it wrote.
#[derive(Drop)]
pub struct Played {
    pub status: u8,
    pub output: Vec<u8>,
    pub errors: Vec<u8>,
}

impl Played {
    /// A run that wrote this, and ended well.
    pub fn well(alloc: Global, output: Vec<u8>) -> Played {
        Played {
            status: 0,
            output,
            errors: Vec::new(alloc),
        }
    }
}

/// What plays the runs of transcripts.
pub trait Player {
    /// What a run comes to, of which these are the words.
    fn play(&self, alloc: Global, words: &[&str], scene: &Scene) -> Result<Played, AllocError>;
}

/// Whether what was written to standard error is as the run has it.
fn tells_as_written(scene: &Scene, status: u8, errors: &str) -> bool {
    if scene.errors.is_empty() {
        status != 0 || errors.is_empty()
    } else {
        errors.starts_with(scene.errors.as_str())
    }
}

/// What a run came to, if that isn't what is written of it.
fn difference(alloc: Global, scene: &Scene, played: &Played) -> Result<Option<String>, AllocError> {
    let status = played.status;
    let output = str::from_utf8(&played.output).unwrap_or("no text");
    let errors = str::from_utf8(&played.errors).unwrap_or("no text");
    let is_same = scene.status.as_str() == format!(in alloc; "{status}")?.as_str()
        && scene.output.as_str() == output
        && tells_as_written(scene, status, errors);
    if is_same {
        return Ok(None);
    }
    Ok(Some(format!(in alloc; "status {status}, output {output:?}, errors {errors:?}")?))
}

/// Plays a run, and tells what it came to if that isn't what is written of it.
fn differs<P: Player>(
    alloc: Global,
    player: &P,
    scene: &Scene,
) -> Result<Option<String>, AllocError> {
    let words: Vec<&str> = scene.words.as_str().split_whitespace().collect(alloc)?;
    let played = player.play(alloc, words.as_slice(), scene)?;
    difference(alloc, scene, &played)
}

/// Plays the runs of a transcript, and tells how many there are. Gives whether all went as they are written.
fn play_file<R: Files + Print + AllocGlobal, P: Player>(
    rt: &R,
    player: &P,
    file: &str,
) -> io::Result<bool> {
    let alloc = rt.alloc();
    let text = fs::read_to_string(rt, file)?;
    let scenes = scenes_of(alloc, text.as_str())?;
    let mut is_well = true;
    for scene in &scenes {
        if let Some(told) = differs(alloc, player, scene)? {
            let line = scene.line;
            println!(rt; "{file}:{line}: {told}")?;
            is_well = false;
        }
    }
    let count = scenes.len();
    println!(rt; "{file}: {count} runs")?;
    Ok(is_well)
}

/// Plays the transcripts that the words of the command line name. Its output has a line for each file, and before it one for each run
/// that doesn't go as it is written; then the exit status is 1.
pub fn play_files<R: Files + Env + Print + AllocGlobal, P: Player>(
    rt: &R,
    player: &P,
) -> io::Result<ExitCode> {
    let mut is_well = true;
    for file in env::args(rt)?.skip(1) {
        is_well = play_file(rt, player, file.as_str())? && is_well;
    }
    Ok(if is_well {
        ExitCode::SUCCESS
    } else {
        ExitCode::FAILURE
    })
}
