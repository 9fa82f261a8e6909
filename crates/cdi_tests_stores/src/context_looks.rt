//! What is seen of contexts, which stay as they are. Requests and sessions are told by their names, and an ENVIRONMENT by the name of a
//! request or session, as the module `environments` tells.
//!
//! | Line | Answer |
//! |---|---|
//! | `active SCOPE ENVIRONMENT` | whether the scope has an active context |
//! | `ending SCOPE ENVIRONMENT` | whether it has one that is being destroyed |
//! | `due ENVIRONMENT` | whether the session ends |
//! | `has request NAME`, `has session NAME` | whether it is there |
//! | `same request ENVIRONMENT ENVIRONMENT`, `same session ENVIRONMENT ENVIRONMENT` | whether both have it in one slot |
//! | `entry SCOPE BEAN ENVIRONMENT` | what the context has for a bean |
//! | `last SCOPE ENVIRONMENT` | the greatest number that the context has |
//! | `end REQUEST` | the name of the environment of a request that ends, or why it doesn't |
//! | `oldest SCOPE` | the name of the environment of the first request, or the first session, that isn't being destroyed, or `none` |
//! | `environment SCOPE NAME` | `nowhere`, or `kept` if it has a request or a session: the environment that has just this context, which goes under the name |
//! | `refuses begin REQUEST`, `refuses begin REQUEST SESSION` | why a request doesn't begin |
//! | `refuses invalidate SESSION` | why a session isn't invalidated |
//! | `refuses in`, `refuses in REQUEST` | why nothing is done in no request, or in a request |
use crate::context_changes::push_found;
use crate::environments::{Environments, NOWHERE};
use crate::words::{number, scope_of};
use cdi_base::{Scope, Text};
use cdi_contexts::Contexts;
use cdi_store::Context;
use std::alloc::{AllocError, Global};

/// The context of a scope with a name.
fn context_of(alloc: Global, scope: Scope, name: &str) -> Result<Context, AllocError> {
    match scope {
        Scope::RequestScoped => Ok(Context::Request(Text::from_str(alloc, name)?)),
        Scope::SessionScoped => Ok(Context::Session(Text::from_str(alloc, name)?)),
        Scope::ApplicationScoped | Scope::Dependent => Ok(Context::Application),
    }
}

/// Puts the environment that has just the context of a scope with a name under that name.
fn look_up(
    alloc: Global,
    contexts: &Contexts,
    known: &mut Environments,
    scope: Scope,
    name: &str,
) -> Result<&'static str, AllocError> {
    let context = context_of(alloc, scope, name)?;
    let env = contexts.environment(&context);
    known.add(alloc, name, env)?;
    Ok(if env == NOWHERE { "nowhere" } else { "kept" })
}

/// Adds why a call is refused, if it is.
fn push_refusal(contexts: &Contexts, words: &[&str], text: &mut String) -> Result<(), AllocError> {
    let refusal = match words {
        ["begin", request] => contexts.refuses_begin(request, None),
        ["begin", request, session] => contexts.refuses_begin(request, Some(session)),
        ["invalidate", session] => contexts.refuses_invalidate(session),
        ["in"] => contexts.refuses_in(None),
        ["in", request] => contexts.refuses_in(Some(request)),
        _ => return text.push_str("no such line"),
    };
    write!(text, "{refusal:?}")
}

/// Adds the environments of contexts; other words are those of refusals.
fn push_environment(
    alloc: Global,
    contexts: &Contexts,
    known: &mut Environments,
    words: &[&str],
    text: &mut String,
) -> Result<(), AllocError> {
    match words {
        ["end", request] => push_found(known, contexts.end(request), text),
        ["oldest", scope] => match contexts.oldest(scope_of(scope)) {
            Some(env) => text.push_str(known.name_of(env)),
            None => text.push_str("none"),
        },
        ["environment", scope, name] => {
            let word = look_up(alloc, contexts, known, scope_of(scope), name)?;
            text.push_str(word)
        }
        ["refuses", words @ ..] => push_refusal(contexts, words, text),
        _ => text.push_str("no such line"),
    }
}

/// Adds what the active context of a scope has; other words are those of environments.
fn push_held(
    alloc: Global,
    contexts: &Contexts,
    known: &mut Environments,
    words: &[&str],
    text: &mut String,
) -> Result<(), AllocError> {
    match words {
        ["entry", scope, bean, env] => {
            let entry = contexts.entry(scope_of(scope), number(bean), known.get(env));
            write!(text, "{entry:?}")
        }
        ["last", scope, env] => {
            let last = contexts.last(scope_of(scope), known.get(env));
            write!(text, "{last:?}")
        }
        _ => push_environment(alloc, contexts, known, words, text),
    }
}

/// Adds what is seen of contexts.
pub(crate) fn push_look(
    alloc: Global,
    contexts: &Contexts,
    known: &mut Environments,
    words: &[&str],
    text: &mut String,
) -> Result<(), AllocError> {
    let answer = match words {
        ["active", scope, env] => contexts.active(scope_of(scope), known.get(env)),
        ["ending", scope, env] => contexts.ending(scope_of(scope), known.get(env)),
        ["due", env] => contexts.due(known.get(env)),
        ["has", "request", name] => contexts.has_request(name),
        ["has", "session", name] => contexts.has_session(name),
        ["same", "request", env, other] => known.get(env).request == known.get(other).request,
        ["same", "session", env, other] => known.get(env).session == known.get(other).session,
        _ => return push_held(alloc, contexts, known, words, text),
    };
    write!(text, "{answer}")
}
