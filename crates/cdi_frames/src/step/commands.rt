//! The steps of commands.
ghost use Rattle.std.specs.Prelude.{◌≡◌, IfOk, OnErr};
ghost use Rattle.cdi_machine.specs.World.{after_change};
ghost use Rattle.cdi_machine.specs.World.Change.{Return};
ghost use Rattle.cdi_steps.specs.Known.{KnownJob, TellsRightly};
ghost use Rattle.cdi_steps.specs.Steps.{Moves, GoesOn};
ghost use Rattle.cdi_steps.specs.declared.task.Outcome.{Outcome};

use cdi_base::{Scope, Text};
use cdi_events::contexts;
use cdi_host::{Contents, Tables};
use cdi_steps::ends::{ended, null};
use cdi_steps::task::{
    AfterClose, BeanUse, Call, Completion, ContainerEvent, Event, Frame, Job, Next, RequestNames,
    Task,
};
use cdi_store::Context;
use std::alloc::{AllocError, Global};

/// Begins what a command asks for: for the boot, the event of the application's begin (Jakarta CDI 4.0, *Context
/// management for built-in scopes*). On an error nothing changes.
pub(crate) fn begin<T: Tables, W: Contents>(
    tables: &T,
    world: &mut W,
    job: Job,
) -> Result<Next, AllocError>
    requires { KnownJob (T.tables tables.now) (W.world world.old) job }
    ensures step { IfOk result (λ next. Moves (T.tables tables.now) (Task.Begin job)
        (W.world world.old) next (W.world world.new)) }
    ensures kept { OnErr result (W.world world.new ≡ W.world world.old) }
{
    match job {
        Job::Boot => {
            let event = ContainerEvent::Initialized(Scope::ApplicationScoped);
            Ok(Next::Needs(Task::Start(Call::Fire(event)), Frame::Initializing))
        }
        Job::Begin(names) => begin_request(tables, world, names),
        Job::End { request } => contexts::end_request(tables, world, request, AfterClose::Session),
        Job::Invalidate { session } => invalidate(tables, world, session),
        Job::Use { request, used } => use_bean(tables, world, request, used),
        Job::Fire { request, event } => fire(tables, world, request, event),
        Job::Live => Ok(null()),
        Job::Shutdown => shut_down(tables, world),
    }
}

// ---- requests and sessions

/// Begins a request, and its session if that is new (Jakarta CDI 4.0, *Context management for built-in scopes*): both contexts are open
/// before the first event. On an error nothing changes.
fn begin_request<T: Tables, W: Contents>(
    _tables: &T,
    world: &mut W,
    names: Box<RequestNames>,
) -> Result<Next, AllocError>
    requires { KnownJob (T.tables _tables.now) (W.world world.old) (Job.Begin names) }
    ensures step { IfOk result (λ next. Moves (T.tables _tables.now)
        (Task.Begin (Job.Begin names)) (W.world world.old) next (W.world world.new)) }
    ensures kept { OnErr result (W.world world.new ≡ W.world world.old) }
{
    let RequestNames { request, session } = Box::into_inner(names);
    if !world.begin_request(request, session)? {
        return Ok(opened());
    }
    let event = ContainerEvent::Initialized(Scope::SessionScoped);
    Ok(Next::Needs(Task::Start(Call::Fire(event)), Frame::Opening))
}

/// The session has been initialized, if it is new, and so has the request.
pub(crate) fn opened() -> Next
    ensures { result
        ≡ Next.Needs (Task.Start (Call.Fire (ContainerEvent.Initialized Scope.RequestScoped)))
        Frame.Telling }
{
    let event = ContainerEvent::Initialized(Scope::RequestScoped);
    Next::Needs(Task::Start(Call::Fire(event)), Frame::Telling)
}

/// Marks a session, which ends at once if no request has it. On an error nothing changes.
fn invalidate<T: Tables, W: Contents>(
    _tables: &T,
    world: &mut W,
    session: Text,
) -> Result<Next, AllocError>
    ensures step { IfOk result (λ next. Moves (T.tables _tables.now)
        (Task.Begin (Job.Invalidate session)) (W.world world.old) next (W.world world.new)) }
    ensures kept { OnErr result (W.world world.new ≡ W.world world.old) }
{
    if world.is_used(&session) {
        world.mark(&session);
        return Ok(null());
    }
    let context = Context::Session(session.clone()?);
    let next = contexts::close(world.alloc(), context, AfterClose::Nothing)?;
    world.mark(&session);
    world.stand_in_session(session);
    Ok(next)
}

/// Ends all contexts: requests in the order of their begin, sessions in that of their creation, and the application. On an error
/// nothing changes.
fn shut_down<T: Tables, W: Contents>(tables: &T, world: &mut W) -> Result<Next, AllocError>
    ensures step { IfOk result (λ next. Moves (T.tables tables.now) (Task.Begin Job.Shutdown)
        (W.world world.old) next (W.world world.new)) }
    ensures kept { OnErr result (W.world world.new ≡ W.world world.old) }
{
    let requests = Box::new(world.alloc(), world.requests()?)?;
    contexts::end_requests(tables, world, requests)
}

// ---- boot

/// The application has been initialized: the container has started (Jakarta CDI 4.0, *Startup event*).
pub(crate) fn starting() -> Next
    ensures { result ≡ Next.Needs (Task.Start (Call.Fire ContainerEvent.Startup)) Frame.Telling }
{
    let call = Task::Start(Call::Fire(ContainerEvent::Startup));
    Next::Needs(call, Frame::Telling)
}

// ---- a call, a read, an event

/// Uses the bean with a type and qualifiers, in a request or in none, with what is borrowed for the time of the command. On an error
/// nothing changes.
fn use_bean<T: Tables, W: Contents>(
    _tables: &T,
    world: &mut W,
    request: Option<Text>,
    used: Box<BeanUse>,
) -> Result<Next, AllocError>
    requires { TellsRightly (T.tables _tables.now) used.value }
    ensures step { IfOk result (λ next. Moves (T.tables _tables.now)
        (Task.Begin (Job.Use request used)) (W.world world.old) next (W.world world.new)) }
    ensures kept { OnErr result (W.world world.new ≡ W.world world.old) }
{
    world.borrow()?;
    match world.stand_in(request) {
        Ok(()) => Ok(Next::Needs(Task::Using(used), Frame::Using)),
        Err(error) => {
            world.give_back();
            Err(error)
        }
    }
}

/// Fires an event, in a request or in none (Jakarta CDI 4.0, *Firing events*). On an error nothing changes.
fn fire<T: Tables, W: Contents>(
    tables: &T,
    world: &mut W,
    request: Option<Text>,
    event: Box<Event>,
) -> Result<Next, AllocError>
    ensures step { IfOk result (λ next. Moves (T.tables tables.now)
        (Task.Begin (Job.Fire request event)) (W.world world.old) next (W.world world.new)) }
    ensures kept { OnErr result (W.world world.new ≡ W.world world.old) }
{
    let written = written(tables, world.alloc(), event)?;
    world.stand_in(request)?;
    Ok(Next::Goes(Task::Start(Call::Publish(written))))
}

/// The same event with its qualifiers in their written form (Jakarta CDI 4.0, *Event types and qualifier types*).
fn written<T: Tables>(
    tables: &T,
    alloc: Global,
    event: Box<Event>,
) -> Result<Box<Event>, AllocError>
    ensures { IfOk result (λ written. written.value ≡ record event.value {
      qualifiers = (T.tables tables.now).written event.value.qualifiers;
    }) }
{
    let mut event = event;
    event.qualifiers = tables.written(alloc, event.qualifiers.as_slice())?;
    Ok(event)
}

/// The use of the bean has ended: what was borrowed is destroyed and given back, at once if nothing was.
pub(crate) fn returning<T: Tables, W: Contents>(
    _tables: &T,
    world: &mut W,
    completion: Completion,
) -> Result<Next, AllocError>
    ensures step { IfOk result (λ next. GoesOn (T.tables _tables.now) Frame.Using completion
        (W.world world.old) next (W.world world.new)) }
    ensures kept { OnErr result (W.world world.new ≡ W.world world.old) }
{
    if let Some(None) = world.latest_temporary() {
        return Ok(returned(world, completion));
    }
    let told = boxed(world.alloc(), completion)?;
    Ok(Next::Needs(Task::Start(Call::Dismiss), Frame::Returning(told)))
}

/// How a use ended, in a box.
fn boxed(alloc: Global, completion: Completion) -> Result<Box<Completion>, AllocError>
    ensures { IfOk result (λ boxed. boxed.value ≡ completion) }
{
    Ok(Box::new(alloc, completion)?)
}

/// What was borrowed is given back.
pub(crate) fn returned<W: Contents>(world: &mut W, completion: Completion) -> Next
    ensures next { result ≡ Next.Finished (Outcome.Ends completion) }
    ensures world { W.world world.new ≡ after_change Return (W.world world.old) }
{
    world.give_back();
    ended(completion)
}
