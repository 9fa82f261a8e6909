//! The contexts by their names. A context that is gone changes nothing.
ghost use Rattle.std.specs.Prelude.{◌≡◌, None, IfOk, OnOk, OnErr};
ghost use Rattle.cdi_contexts.specs.Contexts.{context_at, with_ending, with_held, with_nothing};
ghost use Rattle.cdi_contexts.specs.Contexts.{with_mark, without_context};
ghost use Rattle.cdi_contexts.specs.Refusals.{begin_refusal, opens_session};
ghost use Rattle.cdi_contexts.specs.Standing.{with_begun};
ghost use Rattle.cdi_machine.specs.Destruction.{greatest_in};
ghost use Rattle.cdi_world.specs.Reached as spec;

use cdi_base::{Scope, Text};
use cdi_contexts::{Contexts, Held};
use cdi_store::Context;
use std::alloc::AllocError;

/// The scope of a context (Jakarta CDI 4.0, *Context management for built-in scopes*).
pub(crate) fn scope_of(context: &Context) -> Scope
    ensures { result ≡ spec.scope_of context.now }
{
    match context {
        Context::Application => Scope::ApplicationScoped,
        Context::Request(_) => Scope::RequestScoped,
        Context::Session(_) => Scope::SessionScoped,
    }
}

/// Begins a request that isn't refused, in its session if it names one. A session that isn't there
/// begins with it; whether it does is told. On an error nothing changes.
pub(crate) fn begin_in(
    contexts: &mut Contexts,
    request: &Text,
    session: &Option<Text>,
) -> Result<bool, AllocError>
    requires { begin_refusal contexts.old.contexts request.now session.now ≡ None }
    ensures begun { OnOk result (contexts.new.contexts
        ≡ with_begun request.now session.now contexts.old.contexts) }
    ensures opens { IfOk result (λ opens. opens
        ≡ opens_session contexts.old.contexts session.now) }
    ensures err { OnErr result (contexts.new ≡ contexts.old) }
{
    let session = match session {
        Some(name) => Some(name.as_str()),
        None => None,
    };
    let opens = contexts.opens_session(session);
    match contexts.begin(request.as_str(), session) {
        Ok(_) => Ok(opens),
        Err(_) => Err(AllocError),
    }
}

/// Marks a session. One that is marked already, or isn't there, stays as it is.
pub(crate) fn mark_in(contexts: &mut Contexts, session: &Text)
    ensures { contexts.new.contexts ≡ with_mark session.now contexts.old.contexts }
{
    let _ = contexts.invalidate(session.as_str());
}

/// The greatest number of an instance that a context has.
pub(crate) fn last_in(contexts: &Contexts, context: &Context) -> Option<u32>
    ensures { result ≡ greatest_in (context_at contexts.now.contexts context.now) }
{
    contexts.last(scope_of(context), contexts.environment(context))
}

/// Gives a context something for a bean. On an error nothing changes.
pub(crate) fn put_in(
    contexts: &mut Contexts,
    context: &Context,
    bean: u32,
    held: Held,
) -> Result<(), AllocError>
    ensures ok { OnOk result (contexts.new.contexts
        ≡ with_held bean held context.now contexts.old.contexts) }
    ensures err { OnErr result (contexts.new ≡ contexts.old) }
{
    let env = contexts.environment(context);
    contexts.put(scope_of(context), bean, env, held)
}

/// Takes from a context what it has for a bean.
pub(crate) fn leave_in(contexts: &mut Contexts, context: &Context, bean: u32)
    ensures { contexts.new.contexts ≡ with_nothing bean context.now contexts.old.contexts }
{
    let env = contexts.environment(context);
    contexts.leave(scope_of(context), bean, env);
}

/// A context is being destroyed: no more instances are made in it.
pub(crate) fn finish_in(contexts: &mut Contexts, context: &Context)
    ensures { contexts.new.contexts ≡ with_ending context.now contexts.old.contexts }
{
    let scope = scope_of(context);
    let env = contexts.environment(context);
    if !contexts.ending(scope, env) {
        contexts.step(scope, env);
    }
}

/// A context is gone.
pub(crate) fn close_in(contexts: &mut Contexts, context: &Context)
    ensures { contexts.new.contexts ≡ without_context context.now contexts.old.contexts }
{
    finish_in(contexts, context);
    let env = contexts.environment(context);
    contexts.step(scope_of(context), env);
}
