//! Copies of what commands ask for.
ghost use Rattle.std.specs.Prelude.{◌≡◌, IfOk};
ghost use Rattle.cdi_machine.specs.Tables.{Tables};
ghost use Rattle.cdi_steps.specs.Known.{JobTellsRightly};
ghost use Rattle.cdi_steps.specs.Words.{command_of};

use cdi_base::Text;
use cdi_steps::{BeanPurpose, BeanUse, Event, Job, RequestNames};
use std::alloc::{AllocError, Global};

/// A copy of a name, if there is one.
pub(crate) fn copy_of(name: &Option<Text>) -> Result<Option<Text>, AllocError>
    ensures { IfOk result (λ copy. copy ≡ name.now) }
{
    match name {
        Some(name) => Ok(Some(name.clone()?)),
        None => Ok(None),
    }
}

fn copy_of_purpose(purpose: &BeanPurpose) -> Result<BeanPurpose, AllocError>
    ensures { IfOk result (λ copy. copy ≡ purpose.now) }
{
    match purpose {
        BeanPurpose::Call { method, args } => Ok(BeanPurpose::Call {
            method: *method,
            args: args.clone()?,
        }),
        BeanPurpose::Read => Ok(BeanPurpose::Read),
    }
}

fn copy_of_use(alloc: Global, used: &BeanUse) -> Result<Box<BeanUse>, AllocError>
    ensures { IfOk result (λ copy. copy.value ≡ used.now) }
{
    let copy = BeanUse {
        bean_type: used.bean_type,
        qualifiers: used.qualifiers.clone()?,
        resolved: used.resolved,
        purpose: copy_of_purpose(&used.purpose)?,
    };
    Ok(Box::new(alloc, copy)?)
}

fn copy_of_event(alloc: Global, event: &Event) -> Result<Box<Event>, AllocError>
    ensures { IfOk result (λ copy. copy.value ≡ event.now) }
{
    let copy = Event {
        class: event.class,
        qualifiers: event.qualifiers.clone()?,
        value: event.value.clone()?,
    };
    Ok(Box::new(alloc, copy)?)
}

/// The names of a request that begins, and of its session, in a copy.
pub(crate) fn copy_of_names(
    alloc: Global,
    request: &Text,
    session: &Option<Text>,
) -> Result<Box<RequestNames>, AllocError>
    ensures { IfOk result (λ copy. copy.value
        ≡ record { request = request.now; session = session.now }) }
{
    let copy = RequestNames {
        request: request.clone()?,
        session: copy_of(session)?,
    };
    Ok(Box::new(alloc, copy)?)
}

/// A copy of a job, which asks for the same and tells the same.
pub(crate) fn copy_of_job(alloc: Global, job: &Job) -> Result<Job, AllocError>
    ensures command { IfOk result (λ copy. command_of copy ≡ command_of job.now) }
    ensures rightly { IfOk result (λ copy. (tables : Tables)
        → JobTellsRightly tables job.now → JobTellsRightly tables copy) }
{
    match job {
        Job::Boot => Ok(Job::Boot),
        Job::Begin(names) => {
            Ok(Job::Begin(copy_of_names(alloc, &names.request, &names.session)?))
        }
        Job::End { request } => Ok(Job::End {
            request: request.clone()?,
        }),
        Job::Invalidate { session } => Ok(Job::Invalidate {
            session: session.clone()?,
        }),
        Job::Use { request, used } => Ok(Job::Use {
            request: copy_of(request)?,
            used: copy_of_use(alloc, used)?,
        }),
        Job::Fire { request, event } => Ok(Job::Fire {
            request: copy_of(request)?,
            event: copy_of_event(alloc, event)?,
        }),
        Job::Live => Ok(Job::Live),
        Job::Shutdown => Ok(Job::Shutdown),
    }
}
