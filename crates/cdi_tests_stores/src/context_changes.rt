//! The changes of contexts, a line each. Requests and sessions are told by their names, and an ENVIRONMENT by the name of a request or
//! session, as the module `environments` tells.
//!
//! | Line | Change | Answer |
//! |---|---|---|
//! | `begin REQUEST` | begins a request with no session | `begun`, or why not |
//! | `begin REQUEST SESSION` | begins a request in a session | the same |
//! | `invalidate SESSION` | marks a session | the name of its environment, or why not |
//! | `step SCOPE ENVIRONMENT` | the context takes its next step towards its end | `done` |
//! | `put SCOPE BEAN HELD ENVIRONMENT` | gives the context something for a bean | `done` |
//! | `leave SCOPE BEAN ENVIRONMENT` | takes from the context what it has for a bean | `done` |
//! | others | a look: see the module `context_looks` | |
use crate::context_looks::push_look;
use crate::environments::Environments;
use crate::words::{held_of, number, scope_of};
use cdi_base::Refusal;
use cdi_contexts::{Contexts, Env};
use std::alloc::{AllocError, Global};

/// Puts the environment of a request that has begun under its name, and its session alone under that of the session.
fn keep(
    alloc: Global,
    known: &mut Environments,
    request: &str,
    session: Option<&str>,
    env: Env,
) -> Result<(), AllocError> {
    if let Some(session) = session {
        let alone = Env {
            request: None,
            session: env.session,
        };
        known.add(alloc, session, alone)?;
    }
    known.add(alloc, request, env)
}

/// Begins a request.
fn begin(
    alloc: Global,
    contexts: &mut Contexts,
    known: &mut Environments,
    request: &str,
    session: Option<&str>,
    text: &mut String,
) -> Result<(), AllocError> {
    match contexts.begin(request, session) {
        Ok(env) => {
            keep(alloc, known, request, session, env)?;
            text.push_str("begun")
        }
        Err(error) => write!(text, "Err({error:?})"),
    }
}

/// Adds the name of an environment, or why there is none.
pub(crate) fn push_found(
    known: &Environments,
    found: Result<Env, Refusal>,
    text: &mut String,
) -> Result<(), AllocError> {
    match found {
        Ok(env) => text.push_str(known.name_of(env)),
        Err(refusal) => write!(text, "Err({refusal:?})"),
    }
}

/// Makes a change in an environment; other words are those of a look.
fn answer_inside(
    alloc: Global,
    contexts: &mut Contexts,
    known: &mut Environments,
    words: &[&str],
    text: &mut String,
) -> Result<(), AllocError> {
    match words {
        ["step", scope, env] => contexts.step(scope_of(scope), known.get(env)),
        ["put", scope, bean, held, env] => {
            contexts.put(scope_of(scope), number(bean), known.get(env), held_of(held))?;
        }
        ["leave", scope, bean, env] => {
            contexts.leave(scope_of(scope), number(bean), known.get(env));
        }
        _ => return push_look(alloc, contexts, known, words, text),
    }
    text.push_str("done")
}

/// Makes a call, and adds what the contexts answer.
pub(crate) fn answer_contexts(
    alloc: Global,
    contexts: &mut Contexts,
    known: &mut Environments,
    words: &[&str],
    text: &mut String,
) -> Result<(), AllocError> {
    match words {
        ["begin", request] => begin(alloc, contexts, known, request, None, text),
        ["begin", request, session] => {
            begin(alloc, contexts, known, request, Some(session), text)
        }
        ["invalidate", session] => push_found(known, contexts.invalidate(session), text),
        _ => answer_inside(alloc, contexts, known, words, text),
    }
}
