//! What came of asking for the words of the command line.
ghost use Rattle.std.specs.Prelude.{◌≡◌, IfErr, IsErrAnd, IsOk, Some};
ghost use Rattle.std.specs.IoError.{error_kind};
ghost use Rattle.cdi_program.specs.Program as spec;
ghost use Rattle.cdi_program.specs.declared.words.TheConstants.{NOT_TEXT};
ghost use Rattle.cdi_program.specs.declared.words.WordsError.TheVariants.{Memory};

use crate::status::{FAULT, USAGE};
use std::alloc::{AllocFailed, Global};
use std::error::Error;
use std::io::ErrorKind;
use std::{env, fmt, io};

/// The kind of the error by which the library tells that a word isn't UTF-8.
const NOT_TEXT: ErrorKind = ErrorKind::InvalidData;

/// Why the words of the command line are not known.
#[derive(Clone, Copy, PartialEq, Eq, Debug)]
pub enum WordsError {
    /// A word isn't UTF-8.
    NotText,
    /// A growth was refused.
    Memory,
}

impl WordsError {
    /// The error in words.
    pub const fn text(self) -> &'static str
        ensures { result.now ≡ spec.words_error_text self }
    {
        match self {
            WordsError::NotText => "a word of the command line is not UTF-8",
            WordsError::Memory => "out of memory",
        }
    }

    /// The exit status: 2 for a wrong word, and 3 for want of memory.
    pub const fn status(self) -> u8
        ensures { result ≡ spec.status_without_words self }
    {
        match self {
            WordsError::NotText => USAGE,
            WordsError::Memory => FAULT,
        }
    }
}

impl fmt::Display for WordsError {
    ghost output = { λ error. Some (spec.words_error_text error) };

    fn fmt<W: fmt::Write>(&self, f: &mut fmt::Formatter<W>) -> fmt::Result {
        f.write_str(self.text())
    }
}

impl Error for WordsError {}

impl From<io::Error> for WordsError {
    ghost from_gives = { λ error e.
        spec.IsWhy (error_kind error ≡ NOT_TEXT) e };

    fn from(error: io::Error) -> WordsError {
        match error.kind() {
            NOT_TEXT => WordsError::NotText,
            _ => WordsError::Memory,
        }
    }
}

impl<T: Drop> From<AllocFailed<T>> for WordsError {
    ghost from_gives = { λ _ e. e ≡ Memory };

    fn from(_error: AllocFailed<T>) -> WordsError {
        WordsError::Memory
    }
}

/// The words, if they came.
fn words_in(alloc: Global, args: io::Result<env::Args>) -> Result<Vec<String>, WordsError>
    ensures fails { IfErr args (λ error. IsErrAnd result
        (spec.IsWhy (error_kind error ≡ NOT_TEXT))) }
    ensures memory { IsOk args → IfErr result (λ error. error ≡ Memory) }
{
    let mut words = Vec::new(alloc);
    for word in args? {
        words.push(word)?;
    }
    Ok(words)
}

/// The words of the command line, of which the first is the program's name.
pub fn host_words(rt: &HostRuntime, alloc: Global) -> Result<Vec<String>, WordsError> {
    words_in(alloc, env::args(rt))
}
