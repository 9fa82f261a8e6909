//! Why serving ended before the end of the input.
ghost use Rattle.std.specs.Prelude.{◌≡◌, Some};
ghost use Rattle.cdi_lines.specs.declared.fault.ServeFault.TheVariants as faults;
ghost use Rattle.cdi_lines.specs.Faults.{fault_text};

use crate::sink::WriteFailed;
use crate::source::ReadFailed;
use std::alloc::{AllocError, AllocFailed};
use std::error::Error;
use std::fmt;

/// Why serving ended before the end of the input.
#[derive(Clone, Copy, Debug, PartialEq, Eq)]
pub enum ServeFault {
    /// A read failed. Each line that ends in what was read before is answered.
    Read,
    /// The input has more bytes than may be read. Each line that ends in what was read is answered.
    TooLong,
    /// A write or a flush failed. Some whole lines in front are answered, and a front part of their replies is written.
    Write,
    /// A growth was refused. Some whole lines in front are answered, and their replies are written. One line more may be
    /// answered, whose reply is lost.
    Memory,
}

impl ServeFault {
    /// The fault in words.
    pub const fn text(self) -> &'static str
        ensures { result.now ≡ fault_text self }
    {
        match self {
            ServeFault::Read => "the input could not be read",
            ServeFault::TooLong => "the input is too long",
            ServeFault::Write => "the output could not be written",
            ServeFault::Memory => "out of memory",
        }
    }
}

impl fmt::Display for ServeFault {
    ghost output = { λ fault. Some (fault_text fault) };

    fn fmt<W: fmt::Write>(&self, f: &mut fmt::Formatter<W>) -> fmt::Result {
        f.write_str(self.text())
    }
}

impl Error for ServeFault {}

impl From<ReadFailed> for ServeFault {
    ghost from_gives = { λ _ e. e ≡ faults.Read };

    fn from(_error: ReadFailed) -> ServeFault {
        ServeFault::Read
    }
}

impl From<WriteFailed> for ServeFault {
    ghost from_gives = { λ _ e. e ≡ faults.Write };

    fn from(_error: WriteFailed) -> ServeFault {
        ServeFault::Write
    }
}

impl From<AllocError> for ServeFault {
    ghost from_gives = { λ _ e. e ≡ faults.Memory };

    fn from(_error: AllocError) -> ServeFault {
        ServeFault::Memory
    }
}

impl<T: Drop> From<AllocFailed<T>> for ServeFault {
    ghost from_gives = { λ _ e. e ≡ faults.Memory };

    fn from(_error: AllocFailed<T>) -> ServeFault {
        ServeFault::Memory
    }
}
