//! The program `cdi`: runs a deployment on the command lines of its standard input.
#![tactic(auto)]

use cdi_lines::{Buffered, Input, Output, Writer};
use cdi_program::{HostFiles, WordsError, host_words, run_program};
use std::alloc::Global;
use std::io;
use std::process::ExitCode;

/// Runs the program on what came of asking for its words, over the files and the streams of the machine, with the output
/// to this writer.
fn run<W: Writer + Drop>(
    rt: &HostRuntime,
    alloc: Global,
    words: Result<&[String], WordsError>,
    writer: W,
) -> u8 {
    let mut input = Input::new(rt.reader());
    let mut output = Output::new(writer);
    let mut errors = Output::new(rt.stderr());
    run_program(
        alloc,
        words,
        &HostFiles::new(rt),
        &mut input,
        &mut output,
        &mut errors,
    )
}

/// Runs the program. Where there is no memory for a buffer of its output there is none for its words either.
fn run_on(rt: &HostRuntime, alloc: Global) -> u8 {
    let Ok(writer) = Buffered::new(alloc, io::writer(rt)) else {
        return run(rt, alloc, Err(WordsError::Memory), io::writer(rt));
    };
    match host_words(rt, alloc) {
        Ok(words) => run(rt, alloc, Ok(words.as_slice()), writer),
        Err(error) => run(rt, alloc, Err(error), writer),
    }
}

fn main(rt: HostRuntime) -> ExitCode {
    ExitCode::from(run_on(&rt, rt.alloc()))
}
