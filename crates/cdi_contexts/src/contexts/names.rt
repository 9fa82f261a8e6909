//! Requests and sessions by their names.
ghost use Rattle.std.specs.Prelude.{◌≡◌, is_some, map, IfOk, IfSome, option_map};
ghost use Rattle.std.specs.Option.{option_copied};
ghost use Rattle.std.specs.List.{list_any};
ghost use Rattle.cdi_contexts.specs.Contexts.{belongs_to, session_of_request};
ghost use Rattle.cdi_contexts.specs.Refusals.{request_refusal};
ghost use Rattle.cdi_contexts.specs.Group.{request_found, session_found, IsRequestOf, IsSessionOf};
ghost use Rattle.cdi_contexts.specs.Standing.{first_open_request, first_open_session};
ghost use Rattle.cdi_contexts.specs.Standing.{request_by, session_by};

use super::Contexts;
use crate::group::Kept;
use cdi_base::{Refusal, Text};
use std::alloc::{AllocError, Global};

impl Contexts {
    /// The request of a name, with its slot.
    pub(super) fn request(&self, name: &str) -> Option<(usize, &Kept<Option<Text>>)>
        ensures value { option_map request_found result ≡ request_by self.now name.now }
        ensures there { IfSome result (IsRequestOf self.now) }
    {
        self.requests.find(name)
    }

    /// The session of a name, with its slot.
    pub(super) fn session(&self, name: &str) -> Option<(usize, &Kept<bool>)>
        ensures value { option_map session_found result ≡ session_by self.now name.now }
        ensures there { IfSome result (IsSessionOf self.now) }
    {
        self.sessions.find(name)
    }

    /// The first request that isn't being destroyed, with its slot.
    pub(super) fn first_request(&self) -> Option<(usize, &Kept<Option<Text>>)>
        ensures value { option_map request_found result ≡ first_open_request self.now }
        ensures there { IfSome result (IsRequestOf self.now) }
    {
        self.requests.first_open()
    }

    /// The first session that isn't being destroyed, with its slot.
    pub(super) fn first_session(&self) -> Option<(usize, &Kept<bool>)>
        ensures value { option_map session_found result ≡ first_open_session self.now }
        ensures there { IfSome result (IsSessionOf self.now) }
    {
        self.sessions.first_open()
    }

    /// Whether a request of this name is there, open or being destroyed.
    pub fn has_request(&self, name: &str) -> bool
        ensures { result ≡ is_some (request_by self.now name.now) }
    {
        self.request(name).is_some()
    }

    /// Whether a session of this name is there, open or being destroyed.
    pub fn has_session(&self, name: &str) -> bool
        ensures { result ≡ is_some (session_by self.now name.now) }
    {
        self.session(name).is_some()
    }

    /// The session that a request belongs to (Jakarta CDI 4.0, *Context management for built-in
    /// scopes*); there is none if no request of this name is there, or it belongs to none.
    pub fn session_of(&self, request: &str) -> Option<&Text>
        ensures { option_copied result ≡ session_of_request self.now.contexts request.now }
    {
        let (_slot, kept) = self.request(request)?;
        kept.detail.as_ref()
    }

    /// Whether a request that is there belongs to a session.
    pub fn is_used(&self, session: &str) -> bool
        ensures { result ≡ list_any (belongs_to session.now) self.now.contexts.requests }
    {
        self.requests.has_member(session)
    }

    /// The names of the requests that are there, in the order of their begin. Memory can be
    /// wanting.
    pub fn request_names(&self, alloc: Global) -> Result<Vec<Text>, AllocError>
        ensures { IfOk result (λ names.
            names.items ≡ map (λ r. r.name) self.now.contexts.requests) }
    {
        self.requests.names(alloc)
    }

    /// The names of the sessions that are there, in the order of their creation. Memory can be
    /// wanting.
    pub fn session_names(&self, alloc: Global) -> Result<Vec<Text>, AllocError>
        ensures { IfOk result (λ names.
            names.items ≡ map (λ s. s.name) self.now.contexts.sessions) }
    {
        self.sessions.names(alloc)
    }

    /// Why nothing is done in a request, if it isn't: [`Refusal::NoRequest`] if a request is named that
    /// isn't there.
    pub fn refuses_in(&self, request: Option<&str>) -> Option<Refusal>
        ensures { result ≡ request_refusal self.now.contexts (option_copied request.entry) }
    {
        match request {
            Some(name) if !self.has_request(name) => Some(Refusal::NoRequest),
            _ => None,
        }
    }
}
