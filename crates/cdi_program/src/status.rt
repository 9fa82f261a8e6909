//! The exit statuses that are not those of a run or a report.
ghost use Rattle.std.specs.Prelude.{◌≡◌};
ghost use Rattle.cdi_program.specs.Statuses as spec;

use clap::error::ErrorKind;

/// The exit status of a deployment that is refused.
pub const REFUSED: u8 = 1;

/// The exit status where the words are wrong.
pub const USAGE: u8 = 2;

/// The exit status where reading, writing or memory failed outside of a command.
pub const FAULT: u8 = 3;

/// Whether the words ask for help or for the version.
pub fn is_shown(kind: ErrorKind) -> bool
    ensures { result ≡ spec.is_shown kind }
{
    matches!(kind, ErrorKind::DisplayHelp | ErrorKind::DisplayVersion)
}

/// The exit status where the words ask for nothing to run: 0 where they ask for help or the version, 2 where they are
/// wrong, and that of a fault where memory ran out.
pub fn status_of(kind: ErrorKind) -> u8
    ensures { result ≡ spec.status_of kind }
{
    match kind {
        ErrorKind::DisplayHelp | ErrorKind::DisplayVersion => 0,
        ErrorKind::OutOfMemory => FAULT,
        _ => USAGE,
    }
}

/// The exit status where writing what was found came to a status.
pub(crate) fn status_of_findings(is_refused: bool, shown: u8) -> u8
    ensures { result ≡ spec.status_of_findings is_refused shown }
{
    if shown == 0 && is_refused {
        return REFUSED;
    }
    shown
}
