//! How a report on a deployment ends.
ghost use Rattle.std.specs.Prelude.{◌≡◌};
ghost use Rattle.cdi_report.specs.Verdicts as spec;

use cdi_lines::ServeFault;

/// How a report on a deployment ended.
#[derive(Clone, Copy, Debug, PartialEq, Eq)]
pub enum Verdict {
    /// The deployment has no problem, and this is written.
    Accepted,
    /// The first fault of the deployment is written, or its first bad script, or its problems.
    Refused,
    /// Writing failed, or memory ran out: nothing is promised of the deployment.
    Fault(ServeFault),
}

impl Verdict {
    /// The exit status: 0 for an accepted deployment, 1 for one that is refused, and 3 for a fault.
    pub const fn status(self) -> u8
        ensures { result ≡ spec.status_of self }
    {
        match self {
            Verdict::Accepted => 0,
            Verdict::Refused => 1,
            Verdict::Fault(_) => 3,
        }
    }

    /// The fault that the report ended with, if it did.
    pub const fn outcome(self) -> Result<(), ServeFault>
        ensures { result ≡ spec.outcome_of self }
    {
        match self {
            Verdict::Fault(fault) => Err(fault),
            Verdict::Accepted | Verdict::Refused => Ok(()),
        }
    }
}
