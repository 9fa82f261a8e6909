//! How a run of the program ends.
ghost use Rattle.std.specs.Prelude.{◌≡◌};
ghost use Rattle.cdi_shell.specs.Endings as spec;

use cdi_base::Cause;
use cdi_lines::ServeFault;

/// How a run of the program ended.
#[derive(Clone, Copy, Debug, PartialEq, Eq)]
pub enum Ending {
    /// All lines are answered.
    Fine,
    /// The deployment is refused: its first fault is written, or its problems.
    Refused,
    /// Reading or writing failed, the input was too long, or memory ran out outside of a command; and a command may have
    /// been cut before, so that the container has halted.
    Fault {
        fault: ServeFault,
        halted: Option<Cause>,
    },
    /// All lines are answered, and a command was cut: the container has halted.
    Halted(Cause),
}

impl Ending {
    /// The exit status: 0, 1 for a refused deployment, 3 for a fault, and 4 where the container has halted.
    pub const fn status(self) -> u8
        ensures { result ≡ spec.status_of self }
    {
        match self {
            Ending::Fine => 0,
            Ending::Refused => 1,
            Ending::Fault { .. } => 3,
            Ending::Halted(_) => 4,
        }
    }

    /// The fault that the run ended with, if it did.
    pub const fn outcome(self) -> Result<(), ServeFault>
        ensures { result ≡ spec.outcome_of self }
    {
        match self {
            Ending::Fault { fault, .. } => Err(fault),
            Ending::Fine | Ending::Refused | Ending::Halted(_) => Ok(()),
        }
    }
}

/// How a run ended that served a container so.
pub(crate) fn after_serving(served: Result<(), ServeFault>, halted: Option<Cause>) -> Ending
    ensures { result ≡ spec.after_serving served halted }
{
    if let Err(fault) = served {
        return Ending::Fault { fault, halted };
    }
    match halted {
        Some(cause) => Ending::Halted(cause),
        None => Ending::Fine,
    }
}
