//! The world as the engine asks and changes it. A number that no live instance has changes nothing.
use super::World;
use crate::environment::Environment;
use crate::making::make_shared;
use crate::named::{begin_in, close_in, finish_in, last_in, mark_in};
use cdi_base::{Entry, Fields, Name, Scope, Seq, Text, Value};
use cdi_contexts::{Held, Status};
use cdi_host::{Contents, Invocation, Stack};
use cdi_store::numbered::{free_in, hold_in, instance_in, make_in, refer_in, set_in};
use cdi_store::{Component, Context, Instance, Owner, Reference};
use std::alloc::{AllocError, Global};

impl Contents for World {
    ghost world = { λ w. w };

    fn alloc(&self) -> Global {
        self.alloc
    }

    // ---- as it is

    fn has_room(&self) -> bool {
        self.trace.len() < self.ticks as usize
    }

    fn entries(&self) -> u64 {
        self.trace.len() as u64
    }

    fn may_go_deeper(&self) -> bool {
        self.bodies.len() < self.depth as usize
    }

    /// There is none once 4,294,967,295 has been given out.
    fn next_number(&self) -> Option<u32> {
        self.store.next_number()
    }

    fn instance(&self, number: u32) -> Option<&Instance> {
        instance_in(&self.store, number)
    }

    fn law_few(&self, number: u32) {
        self.store.law_few(number);
    }

    /// Whether instances are made in it (Jakarta CDI 4.0, *The active context object for a scope*).
    fn status(&self, scope: Scope) -> Option<Status> {
        let env = self.environment.slots(&self.contexts);
        self.contexts.status(scope, env)
    }

    fn held(&self, scope: Scope, bean: u32) -> Option<Held> {
        let env = self.environment.slots(&self.contexts);
        self.contexts.entry(scope, bean, env)
    }

    fn context(&self, scope: Scope) -> Result<Option<Context>, AllocError> {
        self.environment.context(scope)
    }

    fn last_in(&self, context: &Context) -> Option<u32> {
        last_in(&self.contexts, context)
    }

    /// Jakarta CDI 4.0, *Context management for built-in scopes*.
    fn due_session(&self) -> Result<Option<Context>, AllocError> {
        if self.contexts.due(self.environment.slots(&self.contexts)) {
            self.environment.context(Scope::SessionScoped)
        } else {
            Ok(None)
        }
    }

    fn is_used(&self, session: &Text) -> bool {
        self.contexts.is_used(session.as_str())
    }

    fn requests(&self) -> Result<Stack<Text>, AllocError> {
        let names = self.contexts.request_names(self.alloc)?;
        Ok(Stack::from_first(names))
    }

    fn sessions(&self) -> Result<Stack<Text>, AllocError> {
        let names = self.contexts.session_names(self.alloc)?;
        Ok(Stack::from_first(names))
    }

    fn invocation(&self) -> Option<&Invocation> {
        self.invocations.top()
    }

    /// Jakarta CDI 4.0, *Programmatic lookup*: `Instance.destroy`.
    fn is_idle(&self, number: u32) -> bool {
        !(self.is_target(number) || self.has_body(number))
    }

    fn latest_temporary(&self) -> Option<Option<u32>> {
        self.temporaries.latest()
    }

    // ---- changed

    fn write(&mut self, entry: Entry) -> Result<(), AllocError> {
        self.trace.push(entry)?;
        Ok(())
    }

    /// If a context owns the instance, that has it as one that is being made (Jakarta CDI 4.0, *Lifecycle of managed
    /// beans*).
    fn make(
        &mut self,
        component: Component,
        owner: Owner,
        fields: Fields,
    ) -> Result<(), AllocError> {
        match (component, owner) {
            (Component::Bean(bean), Owner::Context(context)) => {
                make_shared(&mut self.contexts, &mut self.store, bean, context, fields)
            }
            (component, owner) => make_in(&mut self.store, component, owner, fields),
        }
    }

    /// Its context, its owner or the temporaries have it (Jakarta CDI 4.0, *Dependent objects*).
    fn settle(&mut self, number: u32) -> Result<(), AllocError> {
        self.take_home(number)?;
        self.set_ready(number)
    }

    /// Jakarta CDI 4.0, *Injected fields*.
    fn refer(&mut self, number: u32, field: Name, reference: Reference) -> Result<(), AllocError> {
        refer_in(&mut self.store, number, field, reference)
    }

    fn discard(&mut self, number: u32) {
        self.leave_context(number);
        self.remove(number);
    }

    /// It leaves its context, its owner or the temporaries (Jakarta CDI 4.0, *Lifecycle of managed beans*).
    fn leave(&mut self, number: u32) {
        self.leave_home(number);
        self.set_leaving(number);
    }

    fn remove(&mut self, number: u32) {
        free_in(&mut self.store, number);
    }

    /// A field that isn't there changes nothing.
    fn assign(&mut self, number: u32, field: Name, value: Value) {
        set_in(&mut self.store, number, field, value);
    }

    /// Jakarta CDI 4.0, *Context management for built-in scopes*.
    fn begin_request(&mut self, request: Text, session: Option<Text>) -> Result<bool, AllocError> {
        let opens = begin_in(&mut self.contexts, &request, &session)?;
        self.environment = Environment::new(Some(request), session);
        Ok(opens)
    }

    /// A session that is marked already, or isn't there, stays as it is.
    fn mark(&mut self, session: &Text) {
        mark_in(&mut self.contexts, session);
    }

    /// No more instances are made in it (Jakarta CDI 4.0, *The active context object for a scope*).
    fn finish(&mut self, context: &Context) {
        finish_in(&mut self.contexts, context);
    }

    /// Jakarta CDI 4.0, *Context management for built-in scopes*.
    fn close(&mut self, context: &Context) {
        close_in(&mut self.contexts, context);
    }

    fn stand_in(&mut self, request: Option<Text>) -> Result<(), AllocError> {
        self.environment = Environment::of_request(&self.contexts, request)?;
        Ok(())
    }

    fn stand_in_session(&mut self, session: Text) {
        self.environment = Environment::new(None, Some(session));
    }

    fn enter(&mut self, invocation: Invocation) -> Result<(), AllocError> {
        self.invocations.push(invocation)?;
        Ok(())
    }

    /// Jakarta CDI 4.0, *Dependency injection*.
    fn provide(&mut self, references: Seq<Reference>) {
        self.invocations.provide(references);
    }

    /// Jakarta Interceptors 2.1, *InvocationContext*.
    fn replace(&mut self, parameters: Seq<Value>) {
        self.invocations.replace(parameters);
    }

    /// Jakarta Interceptors 2.1, *InvocationContext*.
    fn keep(&mut self, key: Name, value: Value) -> Result<(), AllocError> {
        self.invocations.keep(key, value)
    }

    /// Jakarta CDI 4.0, *Lifecycle of producer methods*.
    fn hold(&mut self, number: u32, value: Value) {
        hold_in(&mut self.store, number, value);
    }

    fn reach(&mut self) {
        self.invocations.reach();
    }

    fn exit(&mut self) {
        self.invocations.pop();
    }

    fn start(&mut self, number: u32) -> Result<(), AllocError> {
        self.bodies.push(number)?;
        Ok(())
    }

    fn stop(&mut self) {
        self.bodies.pop();
    }

    fn borrow(&mut self) -> Result<(), AllocError> {
        self.temporaries.push(Seq::empty(self.alloc))?;
        Ok(())
    }

    fn give_back(&mut self) {
        self.temporaries.pop();
    }

    fn bring_down(&mut self) {
        self.down = true;
    }
}
