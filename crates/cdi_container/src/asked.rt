//! What a command asks for, with the names of a deployment.
ghost use Rattle.std.specs.Prelude.{◌≡◌, map, IfOk, None};
ghost use Rattle.std.specs.Option.{option_copied};
ghost use Rattle.cdi_base.specs.Name.{number_of};
ghost use Rattle.cdi_container.specs.Commands as spec;
ghost use Rattle.cdi_machine.specs.Tables.{Tables};
ghost use Rattle.cdi_steps.specs.Known.{JobTellsRightly};
ghost use Rattle.cdi_steps.specs.Words.{command_of, use_command};
ghost use Rattle.cdi_steps.specs.declared.task.BeanPurpose.TheVariants as purposes;

use crate::copies::{copy_of, copy_of_names};
use cdi_base::{Command, MemberValue, Names, Seq, Text, Use, Value, WrittenMember, WrittenUse};
use cdi_steps::{BeanPurpose, BeanUse, Event, Job};
use std::alloc::{AllocError, Global};

fn member_for(names: &Names, written: &WrittenMember) -> Result<MemberValue, AllocError>
    ensures { IfOk result (λ member. member ≡ spec.member_for names.now written.now) }
{
    Ok(MemberValue {
        name: names.name_for(written.name.as_str()),
        value: written.value.clone()?,
    })
}

fn members_for(
    alloc: Global,
    names: &Names,
    written: &[WrittenMember],
) -> Result<Seq<MemberValue>, AllocError>
    ensures { IfOk result (λ members. members ≡ map (spec.member_for names.now) written.now) }
{
    let mut members = Seq::empty(alloc);
    for member in written {
        members.push(member_for(names, member)?)?;
    }
    Ok(members)
}

fn use_for(alloc: Global, names: &Names, written: &WrittenUse) -> Result<Use, AllocError>
    ensures { IfOk result (λ u. u ≡ spec.use_for names.now written.now) }
{
    Ok(Use {
        name: names.name_for(written.name.as_str()),
        members: members_for(alloc, names, written.members.as_slice())?,
    })
}

/// The uses with the numbers of their names.
fn uses_for(alloc: Global, names: &Names, written: &[WrittenUse]) -> Result<Seq<Use>, AllocError>
    ensures { IfOk result (λ uses. uses ≡ spec.uses_for names.now written.now) }
{
    let mut uses = Seq::empty(alloc);
    for qualifier in written {
        uses.push(use_for(alloc, names, qualifier)?)?;
    }
    Ok(uses)
}

/// The use of a bean. A name that the table doesn't hold gets a number that no name has.
fn bean_use(
    alloc: Global,
    names: &Names,
    bean_type: &Text,
    qualifiers: &[WrittenUse],
    purpose: BeanPurpose,
) -> Result<Box<BeanUse>, AllocError>
    ensures { IfOk result (λ used. used.value ≡ record {
      bean_type = number_of names.now bean_type.now;
      qualifiers = spec.uses_for names.now qualifiers.now;
      resolved = None;
      purpose = purpose;
    }) }
{
    let used = BeanUse {
        bean_type: names.name_for(bean_type.as_str()),
        qualifiers: uses_for(alloc, names, qualifiers)?,
        resolved: None,
        purpose,
    };
    Ok(Box::new(alloc, used)?)
}

/// The event that a command fires, with its names in the same way.
fn event(
    alloc: Global,
    names: &Names,
    class: &Text,
    qualifiers: &[WrittenUse],
    value: &Value,
) -> Result<Box<Event>, AllocError>
    ensures { IfOk result (λ event. event.value ≡ record {
      class = number_of names.now class.now;
      qualifiers = spec.uses_for names.now qualifiers.now;
      value = value.now;
    }) }
{
    let event = Event {
        class: names.name_for(class.as_str()),
        qualifiers: uses_for(alloc, names, qualifiers)?,
        value: value.clone()?,
    };
    Ok(Box::new(alloc, event)?)
}

/// The call of a method, with the values that it takes.
fn call_of(names: &Names, method: &Text, args: &Seq<Value>) -> Result<BeanPurpose, AllocError>
    ensures { IfOk result (λ purpose.
        purpose ≡ purposes.Call (number_of names.now method.now) args.now) }
{
    Ok(BeanPurpose::Call {
        method: names.name_for(method.as_str()),
        args: args.clone()?,
    })
}

/// A name, if there is one.
pub(crate) fn text_of(name: Option<&Text>) -> Option<&str>
    ensures { option_copied result ≡ option_copied name.entry }
{
    match name {
        Some(name) => Some(name.as_str()),
        None => None,
    }
}

/// The use of a bean, in a request or in none.
fn use_job(
    alloc: Global,
    names: &Names,
    request: &Option<Text>,
    bean_type: &Text,
    qualifiers: &Seq<WrittenUse>,
    purpose: BeanPurpose,
) -> Result<Job, AllocError>
    ensures command { IfOk result (λ job. command_of job ≡ use_command request.now
        (spec.asked_in names.now bean_type.now qualifiers.now) purpose) }
    ensures rightly { IfOk result (λ job. (tables : Tables) → JobTellsRightly tables job) }
{
    Ok(Job::Use {
        request: copy_of(request)?,
        used: bean_use(alloc, names, bean_type, qualifiers.as_slice(), purpose)?,
    })
}

/// What a command asks the engine for, with the names of the deployment. What the use of a bean resolves to isn't told yet.
pub(crate) fn job_for(alloc: Global, names: &Names, command: &Command) -> Result<Job, AllocError>
    ensures command { IfOk result (λ job.
        command_of job ≡ spec.machine_command names.now command.now) }
    ensures rightly { IfOk result (λ job. (tables : Tables) → JobTellsRightly tables job) }
{
    match command {
        Command::Begin { request, session } => {
            Ok(Job::Begin(copy_of_names(alloc, request, session)?))
        }
        Command::Call {
            request,
            bean_type,
            qualifiers,
            method,
            args,
        } => {
            let call = call_of(names, method, args)?;
            use_job(alloc, names, request, bean_type, qualifiers, call)
        }
        Command::Read {
            request,
            bean_type,
            qualifiers,
        } => use_job(
            alloc,
            names,
            request,
            bean_type,
            qualifiers,
            BeanPurpose::Read,
        ),
        Command::Fire {
            request,
            class,
            qualifiers,
            value,
        } => Ok(Job::Fire {
            request: copy_of(request)?,
            event: event(alloc, names, class, qualifiers.as_slice(), value)?,
        }),
        Command::End { request } => Ok(Job::End {
            request: request.clone()?,
        }),
        Command::Invalidate { session } => Ok(Job::Invalidate {
            session: session.clone()?,
        }),
        Command::Live => Ok(Job::Live),
        Command::Shutdown => Ok(Job::Shutdown),
    }
}
