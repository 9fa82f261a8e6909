//! In which request and session a command runs.
ghost use Rattle.std.specs.Prelude.{◌≡◌, IfOk, IsErr, IsSome, IsTrue};
ghost use Rattle.cdi_contexts.specs.Contexts.{context_of, session_of_request};
ghost use Rattle.cdi_contexts.specs.Standing.{environment_of};
ghost use Rattle.cdi_machine.specs.Commands as commands;
ghost use Rattle.cdi_machine.specs.World.{no_environment};
ghost use Rattle.cdi_host.specs.Standing.{has_named_contexts};
ghost use Rattle.cdi_world.specs.Reached.{environment_there, name_in};

use cdi_base::{Scope, Text};
use cdi_contexts::{Contexts, Env};
use cdi_store::Context;
use std::alloc::AllocError;
use std::marker::Model;

/// The request and the session of a command by their names, whether they are there or gone. The
/// application is in every environment (Jakarta CDI 4.0, *Context management for built-in scopes*).
#[derive(Drop)]
pub(crate) struct Environment {
    request: Option<Text>,
    session: Option<Text>,
}

impl Model for Environment {
    ghost use Rattle.cdi_contexts.specs.Contexts.{Environment as AnyEnvironment};

    ghost Value = { AnyEnvironment };

    ghost view = { λ e. record { request = e.request; session = e.session } };
}

impl Environment {
    /// The environment of these names.
    pub(crate) fn new(request: Option<Text>, session: Option<Text>) -> Environment
        ensures { result ≡ record { request = request; session = session } }
    {
        Environment { request, session }
    }

    /// No request and no session.
    pub(crate) fn none() -> Environment
        ensures { result ≡ no_environment }
    {
        Environment {
            request: None,
            session: None,
        }
    }

    /// A request and the session that it belongs to, or none. Memory can be wanting for the name of
    /// the session.
    pub(crate) fn of_request(
        contexts: &Contexts,
        request: Option<Text>,
    ) -> Result<Environment, AllocError>
        ensures is { IfOk result (λ e. e ≡ commands.environment_of contexts.now.contexts request) }
        ensures memory { IsErr result → IsSome request }
    {
        let Some(name) = request else {
            return Ok(Environment::none());
        };
        let session = session_of(contexts, &name)?;
        Ok(Environment {
            request: Some(name),
            session,
        })
    }

    /// The slots of those that are there.
    pub(crate) fn slots(&self, contexts: &Contexts) -> Env
        ensures { environment_of contexts.now result
            ≡ environment_there contexts.now.contexts self.now }
    {
        let request = match &self.request {
            Some(name) => contexts.request_slot(name.as_str()),
            None => None,
        };
        let session = match &self.session {
            Some(name) => contexts.session_slot(name.as_str()),
            None => None,
        };
        Env { request, session }
    }

    /// The context of a scope, if there is one (Jakarta CDI 4.0, *The active context object for a
    /// scope*). Memory can be wanting for its name.
    pub(crate) fn context(&self, scope: Scope) -> Result<Option<Context>, AllocError>
        ensures found { IfOk result (λ context. context_of self.now scope ≡ context) }
        ensures memory { IsErr result → IsTrue (has_named_contexts scope)
            × IsSome (name_in self.now scope) }
    {
        match scope {
            Scope::ApplicationScoped => Ok(Some(Context::Application)),
            Scope::SessionScoped => match &self.session {
                Some(name) => Ok(Some(Context::Session(name.clone()?))),
                None => Ok(None),
            },
            Scope::RequestScoped => match &self.request {
                Some(name) => Ok(Some(Context::Request(name.clone()?))),
                None => Ok(None),
            },
            Scope::Dependent => Ok(None),
        }
    }
}

/// The session that a request belongs to. Memory can be wanting for its name.
fn session_of(contexts: &Contexts, request: &Text) -> Result<Option<Text>, AllocError>
    ensures { IfOk result (λ session. session
        ≡ session_of_request contexts.now.contexts request.now) }
{
    match contexts.session_of(request.as_str()) {
        Some(session) => Ok(Some(session.clone()?)),
        None => Ok(None),
    }
}
