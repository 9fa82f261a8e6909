//! The reply to what was carried out.
ghost use Rattle.std.specs.Prelude.{◌≡◌};
ghost use Rattle.cdi_container.specs.Replies as spec;
ghost use Rattle.cdi_container.specs.States.{cause_of};
ghost use Rattle.cdi_steps.specs.Words.{outcome_of};

use cdi_base::{Cause, Reply};
use cdi_steps::{Completion, Given, Job, Outcome};

/// Whether a job is answered by its value.
pub(crate) fn has_value(job: &Job) -> bool
    ensures { result ≡ spec.has_value job.now }
{
    matches!(job, Job::Use { .. })
}

/// Whether a job asks for the live instances.
pub(crate) fn asks_for_live(job: &Job) -> bool
    ensures { result ≡ spec.asks_for_live job.now }
{
    matches!(job, Job::Live)
}

/// Why a container has halted whose last job ended so, if it has.
pub(crate) fn cause(outcome: &Outcome) -> Option<Cause>
    ensures { result ≡ cause_of (outcome_of outcome.now) }
{
    match outcome {
        Outcome::Cut(cause) => Some(*cause),
        Outcome::Ends(_) => None,
    }
}

fn given_reply(valued: bool, given: Given) -> Reply
    ensures { result ≡ spec.given_reply valued given }
{
    match given {
        Given::Result(value) => if valued {
            Reply::Value(value)
        } else {
            Reply::Done
        },
        _ => Reply::Done,
    }
}

fn completion_reply(valued: bool, completion: Completion) -> Reply
    ensures { result ≡ spec.completion_reply valued completion }
{
    match completion {
        Completion::Gave(given) => given_reply(valued, given),
        Completion::Threw(exception) => Reply::Threw(exception),
    }
}

/// The reply to a job that ended so.
pub(crate) fn reply_of(valued: bool, outcome: Outcome) -> Reply
    ensures { result ≡ spec.reply_of valued outcome }
{
    match outcome {
        Outcome::Ends(completion) => completion_reply(valued, completion),
        Outcome::Cut(cause) => Reply::Halted(cause),
    }
}
