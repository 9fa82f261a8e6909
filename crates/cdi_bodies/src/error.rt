//! Why a body was not added.
ghost use Rattle.std.specs.Prelude.{Some};
ghost use Rattle.cdi_bodies.specs.Adding.{word_of};

use crate::entry::Body;
use std::error::Error;
use std::fmt;

/// Why a body was not added. It is handed back, and the table is as before.
#[derive(Drop)]
pub enum AddError {
    /// The table has a body of this name.
    Repeated(Body),
    /// [`MAX_BODIES`](crate::MAX_BODIES) bodies are there.
    Full(Body),
    /// No memory was left for the entry.
    Memory(Body),
}

impl fmt::Display for AddError {
    ghost output = { λ error. Some (word_of error) };

    fn fmt<W: fmt::Write>(&self, f: &mut fmt::Formatter<W>) -> fmt::Result {
        f.write_str(match self {
            AddError::Repeated(_) => "a body of this name is there already",
            AddError::Full(_) => "the table of bodies is full",
            AddError::Memory(_) => "out of memory",
        })
    }
}

impl fmt::Debug for AddError {
    fn fmt<W: fmt::Write>(&self, f: &mut fmt::Formatter<W>) -> fmt::Result {
        f.write_str(match self {
            AddError::Repeated(_) => "Repeated",
            AddError::Full(_) => "Full",
            AddError::Memory(_) => "Memory",
        })
    }
}

impl Error for AddError {}
