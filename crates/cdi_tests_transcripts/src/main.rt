//! Plays transcripts of the program `cdi`, and of what stands below it: runs as they are written in files, each with what it has to
//! write. The words of a run are told in the module `topics`.
#![tactic(auto)]

mod lines;
mod numbered;
mod program;
mod streams;
mod topics;
mod words;

use crate::topics::Topics;
use crate::words::Program;
use cdi_program::HostFiles;
use cdi_tests_player::play_files;
use std::io;
use std::process::ExitCode;

fn main(rt: HostRuntime) -> io::Result<ExitCode> {
    let files = HostFiles::new(&rt);
    let program = Program { files };
    play_files(&rt, &Topics { program })
}
