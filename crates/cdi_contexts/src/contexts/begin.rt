//! How requests and sessions begin.
ghost use Rattle.std.specs.Prelude.{◌≡◌, is_some, IfOk, IfErr, IfSome, OnErr, None, Some, Err};
ghost use Rattle.std.specs.Prelude.{false};
ghost use Rattle.std.specs.Option.{option_copied};
ghost use Rattle.cdi_contexts.specs.declared.contexts.begin.BeginError.TheVariants.{Memory};
ghost use Rattle.cdi_contexts.specs.Contexts.{request_in, session_in};
ghost use Rattle.cdi_contexts.specs.Group.{at_begin};
ghost use Rattle.cdi_contexts.specs.Refusals.{joins_marked, opens_session};
ghost use Rattle.cdi_contexts.specs.Standing.{Begins, refusal_at};

use super::Contexts;
use crate::context::Env;
use crate::group::Kept;
use crate::table::Table;
use cdi_base::{Refusal, Text};
use std::alloc::{AllocError, Global};
use thiserror::Error;

/// The most requests that are there at a time.
pub const MAX_REQUESTS: usize = 256;

/// The most sessions that are there at a time.
pub const MAX_SESSIONS: usize = 1_024;

/// Why a request did not begin. Nothing has changed.
#[derive(Clone, Copy, Debug, PartialEq, Eq, Error)]
pub enum BeginError {
    /// The begin is refused.
    #[error("refused: {0}")]
    Refused(Refusal),
    /// No memory was left for the request or its session.
    #[error("out of memory")]
    Memory,
}

impl From<AllocError> for BeginError {
    ghost from_gives = { λ _ e. e ≡ Memory };

    fn from(_error: AllocError) -> BeginError {
        BeginError::Memory
    }
}

impl Contexts {
    /// Whether a session is named that is there and is marked.
    fn joins_marked(&self, session: Option<&str>) -> bool
        ensures { result ≡ joins_marked self.now.contexts (option_copied session.entry) }
    {
        let Some(name) = session else {
            return false;
        };
        match self.session(name) {
            Some((_slot, kept)) => kept.detail,
            None => false,
        }
    }

    /// Whether a session is named that isn't there, so that it begins with a request in it.
    pub fn opens_session(&self, session: Option<&str>) -> bool
        ensures { result ≡ opens_session self.now.contexts (option_copied session.entry) }
    {
        match session {
            Some(name) => !self.has_session(name),
            None => false,
        }
    }

    /// Why a request doesn't begin, if it doesn't: the first of these that holds.
    /// [`Refusal::RequestOpen`]: a request of this name is there. [`Refusal::SessionEnding`]: its
    /// session is there, and is marked. [`Refusal::TooManyRequests`]:
    /// [`MAX_REQUESTS`] are there. [`Refusal::TooManySessions`]: its session is new, and
    /// [`MAX_SESSIONS`] are there.
    pub fn refuses_begin(&self, request: &str, session: Option<&str>) -> Option<Refusal>
        ensures { result ≡ refusal_at self.now request.now (option_copied session.entry) }
    {
        if self.has_request(request) {
            Some(Refusal::RequestOpen)
        } else if self.joins_marked(session) {
            Some(Refusal::SessionEnding)
        } else if self.requests.len() >= MAX_REQUESTS {
            Some(Refusal::TooManyRequests)
        } else if self.opens_session(session) && self.sessions.len() >= MAX_SESSIONS {
            Some(Refusal::TooManySessions)
        } else {
            None
        }
    }

    /// Begins a request, in its session if it names one. A session that isn't there yet begins with
    /// it. Both are open and empty, and the environment is theirs; their slots are no one's until
    /// then. It is refused exactly as [`Contexts::refuses_begin`] says, whatever memory there is.
    /// On an error nothing changes.
    pub fn begin(&mut self, request: &str, session: Option<&str>) -> Result<Env, BeginError>
        ensures begun { IfOk result (λ env.
            Begins request.now (option_copied session.entry) self.old env self.new) }
        ensures refused { IfSome (refusal_at self.old request.now (option_copied session.entry))
            (λ r. result ≡ Err (BeginError.Refused r)) }
        ensures memory { refusal_at self.old request.now (option_copied session.entry) ≡ None
            → IfErr result (λ e. e ≡ BeginError.Memory) }
        ensures err { OnErr result (self.new ≡ self.old) }
    {
        if let Some(refusal) = self.refuses_begin(request, session) {
            return Err(BeginError::Refused(refusal));
        }
        Ok(match session {
            Some(name) => self.begin_in(request, name)?,
            None => self.begin_alone(request)?,
        })
    }

    /// Begins a request that is new, with no session.
    fn begin_alone(&mut self, request: &str) -> Result<Env, AllocError>
        requires { request_in self.old.contexts.requests request.now ≡ None }
        ensures begun { IfOk result (λ env. Begins request.now None self.old env self.new) }
        ensures err { OnErr result (self.new ≡ self.old) }
    {
        let kept = new_request(self.alloc, request, None)?;
        let slot = self.requests.insert(kept)?;
        Ok(Env {
            request: Some(slot),
            session: None,
        })
    }

    /// Begins a request that is new, in its session.
    fn begin_in(&mut self, request: &str, session: &str) -> Result<Env, AllocError>
        requires { request_in self.old.contexts.requests request.now ≡ None }
        ensures begun { IfOk result (λ env.
            Begins request.now (Some session.now) self.old env self.new) }
        ensures err { OnErr result (self.new ≡ self.old) }
    {
        let Some((session_slot, _kept)) = self.session(session) else {
            return self.begin_both(request, session);
        };
        let kept = new_request(self.alloc, request, Some(session))?;
        let slot = self.requests.insert(kept)?;
        Ok(Env {
            request: Some(slot),
            session: Some(session_slot),
        })
    }

    /// Begins a request and its session, which are both new.
    fn begin_both(&mut self, request: &str, session: &str) -> Result<Env, AllocError>
        requires request { request_in self.old.contexts.requests request.now ≡ None }
        requires session { session_in self.old.contexts.sessions session.now ≡ None }
        ensures begun { IfOk result (λ env.
            Begins request.now (Some session.now) self.old env self.new) }
        ensures err { OnErr result (self.new ≡ self.old) }
    {
        let kept = new_request(self.alloc, request, Some(session))?;
        let session = new_session(self.alloc, session)?;
        let session_slot = self.sessions.insert(session)?;
        match self.requests.insert(kept) {
            Ok(slot) => Ok(Env {
                request: Some(slot),
                session: Some(session_slot),
            }),
            Err(error) => {
                self.sessions.remove(session_slot);
                Err(error)
            }
        }
    }
}

/// A request at its begin.
fn new_request(
    alloc: Global,
    name: &str,
    session: Option<&str>,
) -> Result<Kept<Option<Text>>, AllocError>
    ensures { IfOk result (λ k. k ≡ at_begin name.now (option_copied session.entry)) }
{
    let session = match session {
        Some(name) => Some(Text::from_str(alloc, name)?),
        None => None,
    };
    Ok(Kept {
        name: Text::from_str(alloc, name)?,
        detail: session,
        table: Table::new(alloc),
    })
}

/// A session at its begin.
fn new_session(alloc: Global, name: &str) -> Result<Kept<bool>, AllocError>
    ensures { IfOk result (λ k. k ≡ at_begin name.now false) }
{
    Ok(Kept {
        name: Text::from_str(alloc, name)?,
        detail: false,
        table: Table::new(alloc),
    })
}
