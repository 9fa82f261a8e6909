//! How requests and sessions end.
ghost use Rattle.std.specs.Prelude.{◌≡◌, IfOk, IfErr, OnOk, OnErr, None, option_map};
ghost use Rattle.cdi_contexts.specs.Contexts.{ending_active, with_ending};
ghost use Rattle.cdi_contexts.specs.Standing.{active_in, in_env, with_marked, with_step};
ghost use Rattle.cdi_contexts.specs.Standing.{without_env};
ghost use Rattle.cdi_contexts.specs.Standing.{environment_if, environment_of, environment_with};
ghost use Rattle.cdi_contexts.specs.Refusals.{invalidate_refusal};
ghost use Rattle.cdi_contexts.specs.Standing.{is_due_in, oldest_environment};
ghost use Rattle.cdi_contexts.specs.Standing.{request_name, request_name_at, session_name};
ghost use Rattle.cdi_contexts.specs.Standing.{session_name_at, session_name_for};
ghost use Rattle.cdi_contexts.specs.Standing.{EndsIn, IsAloneIn, IsBy, RefusesEnd};

use super::Contexts;
use crate::context::{Env, Status};
use crate::table::Table;
use cdi_base::{Refusal, Scope, Text};
use cdi_store::Context;

impl Contexts {
    /// The environment of a request that ends: its own and that of its session, if that is there.
    /// It is refused with [`Refusal::NoRequest`] if no request of this name is there. Nothing
    /// changes.
    pub fn end(&self, request: &str) -> Result<Env, Refusal>
        ensures ok { IfOk result (EndsIn self.now request.now) }
        ensures refused { IfErr result (RefusesEnd self.now request.now) }
    {
        let Some((slot, kept)) = self.request(request) else {
            return Err(Refusal::NoRequest);
        };
        Ok(Env {
            request: Some(slot),
            session: self.slot_for(&kept.detail),
        })
    }

    /// The slot of a request's session, if that is there.
    fn slot_for(&self, session: &Option<Text>) -> Option<usize>
        ensures { session_name_at self.now result ≡ session_name_for self.now session.now }
    {
        match session {
            Some(name) => self.session_slot(name.as_str()),
            None => None,
        }
    }

    /// The environment of the first request, or the first session, that isn't being destroyed: of a
    /// request as [`Contexts::end`] gives it, of a session with it alone. There is none for the
    /// other scopes.
    pub fn oldest(&self, scope: Scope) -> Option<Env>
        ensures { environment_if self.now result ≡ oldest_environment self.now.contexts scope }
    {
        match scope {
            Scope::RequestScoped => {
                let (slot, kept) = self.first_request()?;
                Some(Env {
                    request: Some(slot),
                    session: self.slot_for(&kept.detail),
                })
            }
            Scope::SessionScoped => {
                let (slot, _kept) = self.first_session()?;
                Some(Env {
                    request: None,
                    session: Some(slot),
                })
            }
            Scope::ApplicationScoped | Scope::Dependent => None,
        }
    }

    /// Why a session isn't invalidated, if it isn't: [`Refusal::NoSession`] if none of this name is
    /// there, and [`Refusal::SessionEnding`] if it is marked already.
    pub fn refuses_invalidate(&self, session: &str) -> Option<Refusal>
        ensures { result ≡ invalidate_refusal self.now.contexts session.now }
    {
        match self.session(session) {
            Some((_slot, kept)) => {
                if kept.detail {
                    Some(Refusal::SessionEnding)
                } else {
                    None
                }
            }
            None => Some(Refusal::NoSession),
        }
    }

    /// Marks a session: it ends with its last request, and one that no request has is due at once
    /// ([`Contexts::due`]). The environment holds it alone. It is
    /// refused exactly as [`Contexts::refuses_invalidate`] says, and then nothing changes.
    pub fn invalidate(&mut self, session: &str) -> Result<Env, Refusal>
        ensures marked { OnOk result (self.new ≡ with_marked session.now self.old) }
        ensures environment { IfOk result (IsAloneIn self.new session.now) }
        ensures goes { OnOk result (invalidate_refusal self.old.contexts session.now ≡ None) }
        ensures refused { IfErr result (IsBy (invalidate_refusal self.old.contexts session.now)) }
        ensures err { OnErr result (self.new ≡ self.old) }
    {
        if let Some(refusal) = self.refuses_invalidate(session) {
            return Err(refusal);
        }
        let Some((slot, _kept)) = self.session(session) else {
            return Err(Refusal::NoSession);
        };
        self.sessions.mark(slot);
        Ok(Env {
            request: None,
            session: Some(slot),
        })
    }

    /// Whether the session of an environment is marked and no request that is there belongs to it,
    /// so that it ends.
    pub fn due(&self, env: Env) -> bool
        ensures { result ≡ is_due_in self.now.contexts (environment_of self.now env).session }
    {
        let Some(slot) = env.session else {
            return false;
        };
        match self.sessions.get(slot) {
            Some(kept) => kept.detail && !self.requests.has_member(kept.name.as_str()),
            None => false,
        }
    }

    /// The environment that has just this context, if it is there; the application needs none.
    pub fn environment(&self, context: &Context) -> Env
        ensures { environment_of self.now result ≡ environment_with self.now.contexts context.now }
    {
        match context {
            Context::Application => Env {
                request: None,
                session: None,
            },
            Context::Request(name) => Env {
                request: self.request_slot(name.as_str()),
                session: None,
            },
            Context::Session(name) => Env {
                request: None,
                session: self.session_slot(name.as_str()),
            },
        }
    }

    /// The slot of the request of a name, for an [`Env`] (Jakarta CDI 4.0, *Context management for
    /// built-in scopes*); there is none if no request of this name is there.
    pub fn request_slot(&self, name: &str) -> Option<usize>
        ensures { request_name_at self.now result ≡ request_name self.now name.now }
    {
        let (slot, _kept) = self.request(name)?;
        Some(slot)
    }

    /// The slot of the session of a name, for an [`Env`] (Jakarta CDI 4.0, *Context management for
    /// built-in scopes*); there is none if no session of this name is there.
    pub fn session_slot(&self, name: &str) -> Option<usize>
        ensures { session_name_at self.now result ≡ session_name self.now name.now }
    {
        let (slot, _kept) = self.session(name)?;
        Some(slot)
    }

    /// A context takes its next step towards its end: an open one begins to be destroyed, so that
    /// no more instances are made in it, and one that is being destroyed is gone, so that its slot
    /// may be given again. Where the scope has no active context, nothing changes.
    pub fn step(&mut self, scope: Scope, env: Env)
        ensures { self.new ≡ with_step env scope (active_in self.old env scope) self.old }
    {
        match self.status(scope, env) {
            Some(Status::Open) => self.end_active(scope, env),
            Some(Status::Ending) => self.remove_active(scope, env),
            None => {}
        }
    }

    /// Whether instances are made in the active context of a scope (Jakarta CDI 4.0, *The active
    /// context object for a scope*); nothing where the scope has no active context.
    pub fn status(&self, scope: Scope, env: Env) -> Option<Status>
        ensures { result ≡ option_map (λ a. a.status) (active_in self.now env scope) }
    {
        Some(self.table(scope, env)?.status())
    }

    fn end_active(&mut self, scope: Scope, env: Env)
        ensures { self.new ≡ in_env env scope with_ending self.old }
    {
        match scope {
            Scope::ApplicationScoped => end_in(&mut self.application),
            Scope::SessionScoped => self.sessions.end_at(env.session),
            Scope::RequestScoped => self.requests.end_at(env.request),
            Scope::Dependent => {}
        }
    }

    fn remove_active(&mut self, scope: Scope, env: Env)
        ensures { self.new ≡ without_env env scope self.old }
    {
        match scope {
            Scope::ApplicationScoped => self.application = None,
            Scope::SessionScoped => self.sessions.remove_at(env.session),
            Scope::RequestScoped => self.requests.remove_at(env.request),
            Scope::Dependent => {}
        }
    }
}

/// No more instances are made in the application, if it is there.
fn end_in(application: &mut Option<Table>)
    ensures { application.new ≡ option_map ending_active application.old }
{
    if let Some(table) = application {
        table.end();
    }
}
