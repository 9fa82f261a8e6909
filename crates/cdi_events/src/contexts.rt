//! The steps by which contexts end (Jakarta CDI 4.0, *Context management for built-in scopes*).
ghost use Rattle.std.specs.Prelude.{◌≡◌, IfOk, OnErr};
ghost use Rattle.cdi_steps.specs.Words.{completion_of, scope_of};
ghost use Rattle.cdi_steps.specs.Meanings.{after_close, end_due_session, shut_requests, shut_sessions};
ghost use Rattle.cdi_steps.specs.Contexts.{BeginsToClose, empty_then, end_alone_in, end_in, finish_then};
ghost use Rattle.cdi_steps.specs.Steps.{Settles};
ghost use Rattle.cdi_steps.specs.declared.task.Completion.{Completion};

use cdi_base::{Scope, Text};
use cdi_host::{Contents, Stack, Tables};
use cdi_steps::ends::null;
use cdi_steps::task::{AfterClose, Call, Closing, ContainerEvent, Frame, Given, Next, Task};
use cdi_store::Context;
use std::alloc::{AllocError, Global};

/// The scope of a context.
fn scope_of(context: &Context) -> Scope
    ensures { result ≡ scope_of context.now }
{
    match context {
        Context::Application => Scope::ApplicationScoped,
        Context::Request(_name) => Scope::RequestScoped,
        Context::Session(_name) => Scope::SessionScoped,
    }
}

/// The same context once more.
fn copy_of(context: &Context) -> Result<Context, AllocError>
    ensures { IfOk result (λ copy. copy ≡ context.now) }
{
    Ok(match context {
        Context::Application => Context::Application,
        Context::Request(name) => Context::Request(name.clone()?),
        Context::Session(name) => Context::Session(name.clone()?),
    })
}

/// The end of a context, in a box.
fn boxed(alloc: Global, closing: Closing) -> Result<Box<Closing>, AllocError>
    ensures { IfOk result (λ boxed. boxed.value ≡ closing) }
{
    Ok(Box::new(alloc, closing)?)
}

// ---- the end of a context

/// Begins the end of a context: it is told that it is about to be destroyed.
pub fn close(alloc: Global, context: Context, after: AfterClose) -> Result<Next, AllocError>
    ensures { IfOk result (BeginsToClose context after) }
{
    let event = ContainerEvent::BeforeDestroyed(scope_of(&context));
    let closing = boxed(alloc, Closing { context, after })?;
    Ok(Next::Needs(Task::Start(Call::Fire(event)), Frame::Finishing(closing)))
}

/// No more instances are made in the context, and those that it has are destroyed.
pub fn finishing<T: Tables, W: Contents>(
    _tables: &T,
    world: &mut W,
    closing: Box<Closing>,
) -> Result<Next, AllocError>
    ensures step { IfOk result (λ next. Settles (T.tables _tables.now)
        (finish_then closing.value) 3 (W.world world.old) next (W.world world.new)) }
    ensures kept { OnErr result (W.world world.new ≡ W.world world.old) }
{
    let context = copy_of(&closing.context)?;
    world.finish(&context);
    Ok(Next::Needs(Task::Start(Call::Clear(context)), Frame::Emptying(closing)))
}

/// The instances of the context are gone, and then the context is.
pub fn emptied<T: Tables, W: Contents>(
    _tables: &T,
    world: &mut W,
    closing: Box<Closing>,
    _given: Given,
) -> Next
    ensures { Settles (T.tables _tables.now)
        (empty_then closing.value (completion_of (Completion.Gave _given))) 2
        (W.world world.old) result (W.world world.new) }
{
    let Closing { context, after } = Box::into_inner(closing);
    world.close(&context);
    let event = ContainerEvent::Destroyed(scope_of(&context));
    Next::Needs(Task::Start(Call::Fire(event)), Frame::Closed(after))
}

/// The context is gone: what comes after that. Memory can be wanting; on an error nothing changes.
pub fn closed<T: Tables, W: Contents>(
    tables: &T,
    world: &mut W,
    after: AfterClose,
) -> Result<Next, AllocError>
    ensures step { IfOk result (λ next. Settles (T.tables tables.now) (after_close after) 2
        (W.world world.old) next (W.world world.new)) }
    ensures kept { OnErr result (W.world world.new ≡ W.world world.old) }
{
    match after {
        AfterClose::Nothing => Ok(null()),
        AfterClose::Session => end_due_session(tables, world),
        AfterClose::SessionAndRequests(requests) => {
            end_session_and_requests(tables, world, requests)
        }
        AfterClose::Requests(requests) => end_requests(tables, world, requests),
        AfterClose::Sessions(sessions) => end_sessions(tables, world, sessions),
        AfterClose::Down => {
            world.bring_down();
            Ok(null())
        }
    }
}

// ---- requests and sessions

/// Ends the session of the command, if that is due: it is marked, and no request that is there belongs to it.
fn end_due_session<T: Tables, W: Contents>(_tables: &T, world: &W) -> Result<Next, AllocError>
    ensures { IfOk result (λ next. Settles (T.tables _tables.now) end_due_session 2
        (W.world world.now) next (W.world world.now)) }
{
    match world.due_session()? {
        Some(session) => close(world.alloc(), session, AfterClose::Nothing),
        None => Ok(null()),
    }
}

/// The same, and then ends these requests, all sessions and the application.
fn end_session_and_requests<T: Tables, W: Contents>(
    tables: &T,
    world: &mut W,
    requests: Box<Stack<Text>>,
) -> Result<Next, AllocError>
    ensures step { IfOk result (λ next. Settles (T.tables tables.now)
        (after_close (AfterClose.SessionAndRequests requests)) 2
        (W.world world.old) next (W.world world.new)) }
    ensures kept { OnErr result (W.world world.new ≡ W.world world.old) }
{
    match world.due_session()? {
        Some(session) => close(world.alloc(), session, AfterClose::Requests(requests)),
        None => end_requests(tables, world, requests),
    }
}

/// Begins the end of a request, in which the command runs from here on. On an error nothing changes.
pub fn end_request<T: Tables, W: Contents>(
    _tables: &T,
    world: &mut W,
    request: Text,
    after: AfterClose,
) -> Result<Next, AllocError>
    ensures step { IfOk result (λ next. Settles (T.tables _tables.now)
        (end_in request after) 2 (W.world world.old) next (W.world world.new)) }
    ensures kept { OnErr result (W.world world.new ≡ W.world world.old) }
{
    let context = Context::Request(request.clone()?);
    let next = close(world.alloc(), context, after)?;
    world.stand_in(Some(request))?;
    Ok(next)
}

/// Ends these requests, one after the other, then all sessions and the application. On an error nothing changes.
pub fn end_requests<T: Tables, W: Contents>(
    tables: &T,
    world: &mut W,
    requests: Box<Stack<Text>>,
) -> Result<Next, AllocError>
    ensures step { IfOk result (λ next. Settles (T.tables tables.now)
        (shut_requests requests.value) 2 (W.world world.old) next (W.world world.new)) }
    ensures kept { OnErr result (W.world world.new ≡ W.world world.old) }
{
    let mut requests = requests;
    let Some(request) = requests.take() else {
        let sessions = Box::new(world.alloc(), world.sessions()?)?;
        return end_sessions(tables, world, sessions);
    };
    end_request(
        tables,
        world,
        request,
        AfterClose::SessionAndRequests(requests),
    )
}

/// Begins the end of a session, in which alone the command runs from here on. On an error nothing changes.
pub fn end_session<T: Tables, W: Contents>(
    _tables: &T,
    world: &mut W,
    session: Text,
    after: AfterClose,
) -> Result<Next, AllocError>
    ensures step { IfOk result (λ next. Settles (T.tables _tables.now)
        (end_alone_in session after) 2 (W.world world.old) next (W.world world.new)) }
    ensures kept { OnErr result (W.world world.new ≡ W.world world.old) }
{
    let context = Context::Session(session.clone()?);
    let next = close(world.alloc(), context, after)?;
    world.stand_in_session(session);
    Ok(next)
}

/// Ends these sessions, one after the other, and then the application. On an error nothing changes.
fn end_sessions<T: Tables, W: Contents>(
    tables: &T,
    world: &mut W,
    sessions: Box<Stack<Text>>,
) -> Result<Next, AllocError>
    ensures step { IfOk result (λ next. Settles (T.tables tables.now)
        (shut_sessions sessions.value) 2 (W.world world.old) next (W.world world.new)) }
    ensures kept { OnErr result (W.world world.new ≡ W.world world.old) }
{
    let mut sessions = sessions;
    let Some(session) = sessions.take() else {
        world.stand_in(None)?;
        let event = Task::Start(Call::Fire(ContainerEvent::Shutdown));
        return Ok(Next::Needs(event, Frame::ShuttingDown));
    };
    end_session(tables, world, session, AfterClose::Sessions(sessions))
}
