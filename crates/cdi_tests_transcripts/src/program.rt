//! Running the program over one file.
use cdi_base::Settings;
use cdi_lines::{Input, Output};
use cdi_options::MAX_SLICE;
use cdi_program::{Files, WordsError, run_program};
use cdi_shell::drive::drive;
use cdi_tests_player::Played;
use cdi_tests_player::limits::limits_of;
use std::alloc::Global;
use std::io;
use std::io::{ErrorKind, Read, Write};

/// The file of a run's deployment.
const FILE: &str = "deployment.json";

/// One file, with these bytes.
#[derive(Drop)]
struct OneFile<'a> {
    bytes: &'a [u8],
}

impl Files for OneFile<'_> {
    ghost gives = { λ files path most bytes. Unit {0} };

    ghost refuses = { λ files path. Unit {0} };

    fn front(&self, alloc: Global, path: &str, most: usize) -> io::Result<Vec<u8>> {
        if path != FILE {
            return Err(io::Error::from(ErrorKind::NotFound));
        }
        let count = most.min(self.bytes.len());
        let mut bytes = Vec::new(alloc);
        bytes.extend_from_slice(&self.bytes[..count])?;
        Ok(bytes)
    }
}

/// The settings of a run by limits that its words give in place of words of the program.
fn settings_in(words: &[&str]) -> Option<Settings> {
    match words {
        ["limits", limits @ ..] => Some(Settings {
            limits: limits_of(limits)?,
            ..Settings::default()
        }),
        _ => None,
    }
}

/// How a run ended, with its writer and what was told on standard error.
#[derive(Drop)]
pub(crate) struct Ran<W> {
    pub(crate) status: u8,
    pub(crate) writer: W,
    pub(crate) errors: Vec<u8>,
}

/// Runs the program, or what stands below it under other limits.
pub(crate) fn run<R: Read + Drop, W: Write>(
    alloc: Global,
    words: &[&str],
    bytes: &[u8],
    reader: R,
    writer: W,
) -> Ran<W> {
    let mut input = Input::new(reader);
    let mut output = Output::new(writer);
    let mut errors = Output::new(Vec::new(alloc));
    let status = match settings_in(words) {
        Some(settings) => {
            drive(alloc, bytes, settings, MAX_SLICE, &mut input, &mut output).status()
        }
        None => run_program(
            alloc,
            Ok(words),
            &OneFile { bytes },
            &mut input,
            &mut output,
            &mut errors,
        ),
    };
    Ran {
        status,
        writer: output.into_inner(),
        errors: errors.into_inner(),
    }
}

/// Runs the program where its words are not known.
pub(crate) fn run_without_words(alloc: Global, error: WordsError) -> Played {
    let mut input = Input::new(b"".as_slice());
    let mut output = Output::new(Vec::new(alloc));
    let mut errors = Output::new(Vec::new(alloc));
    let words: Result<&[&str], WordsError> = Err(error);
    let status = run_program(
        alloc,
        words,
        &OneFile { bytes: b"" },
        &mut input,
        &mut output,
        &mut errors,
    );
    Played {
        status,
        output: output.into_inner(),
        errors: errors.into_inner(),
    }
}
