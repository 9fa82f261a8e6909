//! The contexts that are there.
ghost use Rattle.std.specs.Prelude.{◌≡◌, OnOk, OnErr, IsOk, IsTrue, is_some, option_map};
ghost use Rattle.std.specs.Option.{option_copied};
ghost use Rattle.cdi_contexts.specs.Contexts.{active_with, active_without, entry_in, has_place};
ghost use Rattle.cdi_contexts.specs.Contexts.{is_ending_in, last_in, with_held, with_nothing};
ghost use Rattle.cdi_contexts.specs.Standing.{active_in, in_env, nothing_begun, IsOrderly};

mod begin;
mod ending;
mod names;

use crate::context::{Env, Held, Status};
use crate::group::Group;
use crate::table::Table;
pub use begin::{BeginError, MAX_REQUESTS, MAX_SESSIONS};
use cdi_base::{Scope, Text};
use std::alloc::{AllocError, Global};
use std::marker::Model;

/// The contexts that are there (Jakarta CDI 4.0, *Context management for built-in scopes*): the
/// application, and the requests and sessions, each in a slot that an [`Env`] names.
#[derive(Drop)]
pub struct Contexts {
    alloc: Global,
    application: Option<Table>,
    requests: Group<Option<Text>>,
    sessions: Group<bool>,
}

impl Model for Contexts {
    ghost use Rattle.cdi_contexts.specs.Standing.{Standing};

    ghost Value = { Standing };

    ghost use Rattle.cdi_contexts.specs.Group.{standing};

    ghost view = { λ c. standing c.application c.requests c.sessions };
}

impl Contexts {
    /// The contexts at the boot: the application alone.
    pub fn new(alloc: Global) -> Contexts
        ensures { result ≡ nothing_begun }
    {
        Contexts {
            alloc,
            application: Some(Table::new(alloc)),
            requests: Group::new(alloc),
            sessions: Group::new(alloc),
        }
    }

    /// Each request and each session has a slot and a name of its own among those that are there. A
    /// call does nothing: its contract is the law.
    pub fn law_slots(&self)
        ensures { IsOrderly self.now }
    {
        self.requests.law_apart();
        self.sessions.law_apart();
    }

    /// What the active context of a scope has.
    fn table(&self, scope: Scope, env: Env) -> Option<&Table>
        ensures { option_copied result ≡ active_in self.now env scope }
    {
        match scope {
            Scope::ApplicationScoped => self.application.as_ref(),
            Scope::SessionScoped => self.sessions.table(env.session),
            Scope::RequestScoped => self.requests.table(env.request),
            Scope::Dependent => None,
        }
    }

    /// Whether the scope has an active context (Jakarta CDI 4.0, *The active context object for a
    /// scope*).
    pub fn active(&self, scope: Scope, env: Env) -> bool
        ensures { result ≡ is_some (active_in self.now env scope) }
    {
        self.table(scope, env).is_some()
    }

    /// Whether the scope has an active context that is being destroyed.
    pub fn ending(&self, scope: Scope, env: Env) -> bool
        ensures { result ≡ is_ending_in (active_in self.now env scope) }
    {
        match self.table(scope, env) {
            Some(table) => table.status() == Status::Ending,
            None => false,
        }
    }

    /// What the active context of a scope has for a bean; nothing where the scope has no active
    /// context.
    pub fn entry(&self, scope: Scope, bean: u32, env: Env) -> Option<Held>
        ensures { result ≡ entry_in (active_in self.now env scope) bean }
    {
        self.table(scope, env)?.entry(bean)
    }

    /// The greatest number of an instance that the active context of a scope has; none where it has
    /// no instance, or the scope has no active context.
    pub fn last(&self, scope: Scope, env: Env) -> Option<u32>
        ensures { result ≡ last_in (active_in self.now env scope) }
    {
        self.table(scope, env)?.last()
    }

    /// Gives the active context of a scope something for a bean. Where the scope has no active
    /// context, nothing changes. Memory can be wanting only for a bean that has no entry yet, and
    /// for the number of an instance that the bean doesn't have yet. On an error nothing changes.
    pub fn put(&mut self, scope: Scope, bean: u32, env: Env, held: Held) -> Result<(), AllocError>
        ensures ok { OnOk result (self.new ≡ in_env env scope (with_held bean held) self.old) }
        ensures err { OnErr result (self.new ≡ self.old) }
        ensures there { IsTrue (has_place (active_in self.old env scope) bean held) → IsOk result }
    {
        match scope {
            Scope::ApplicationScoped => put_in(&mut self.application, bean, held),
            Scope::SessionScoped => self.sessions.put_at(env.session, bean, held),
            Scope::RequestScoped => self.requests.put_at(env.request, bean, held),
            Scope::Dependent => Ok(()),
        }
    }

    /// Takes from the active context of a scope what it has for a bean. Where the scope has no
    /// active context, nothing changes.
    pub fn leave(&mut self, scope: Scope, bean: u32, env: Env)
        ensures { self.new ≡ in_env env scope (with_nothing bean) self.old }
    {
        match scope {
            Scope::ApplicationScoped => leave_in(&mut self.application, bean),
            Scope::SessionScoped => self.sessions.leave_at(env.session, bean),
            Scope::RequestScoped => self.requests.leave_at(env.request, bean),
            Scope::Dependent => {}
        }
    }
}

/// Gives the application, if it is there, something for a bean. On an error nothing changes.
fn put_in(application: &mut Option<Table>, bean: u32, held: Held) -> Result<(), AllocError>
    ensures ok { OnOk result (
        application.new ≡ option_map (active_with bean held) application.old) }
    ensures err { OnErr result (application.new ≡ application.old) }
    ensures there { IsTrue (has_place application.old bean held) → IsOk result }
{
    match application {
        Some(table) => table.put(bean, held),
        None => Ok(()),
    }
}

/// Takes from the application, if it is there, what it has for a bean.
fn leave_in(application: &mut Option<Table>, bean: u32)
    ensures { application.new ≡ option_map (active_without bean) application.old }
{
    if let Some(table) = application {
        table.leave(bean);
    }
}
