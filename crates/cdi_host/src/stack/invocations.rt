//! The invocations under way.
ghost use Rattle.std.specs.Prelude.{◌≡◌, OnOk, OnErr};
ghost use Rattle.cdi_machine.specs.World.{on_top};
ghost use Rattle.cdi_host.specs.Invocation.{reached, with_data, with_parameters, with_references};

use super::Stack;
use crate::invocation::Invocation;
use cdi_base::{Name, Seq, Value};
use cdi_store::Reference;
use std::alloc::AllocError;

impl Stack<Invocation> {
    /// The injected parameters of the innermost invocation, if there is one, have these references.
    pub fn provide(&mut self, references: Seq<Reference>)
        ensures { self.new ≡ on_top (with_references references) self.old }
    {
        if let Some(innermost) = self.items.last_mut() {
            innermost.provide(references);
        }
    }

    /// The innermost invocation, if there is one, gets other values.
    pub fn replace(&mut self, parameters: Seq<Value>)
        ensures { self.new ≡ on_top (with_parameters parameters) self.old }
    {
        if let Some(innermost) = self.items.last_mut() {
            innermost.replace(parameters);
        }
    }

    /// Keeps a value in the context data of the innermost invocation, if there is one. On an error nothing changes.
    pub fn keep(&mut self, key: Name, value: Value) -> Result<(), AllocError>
        ensures ok { OnOk result (self.new ≡ on_top (with_data key value) self.old) }
        ensures err { OnErr result (self.new ≡ self.old) }
    {
        if let Some(innermost) = self.items.last_mut() {
            innermost.keep(key, value)?;
        }
        Ok(())
    }

    /// The end of the innermost invocation's chain has been reached, if there is an invocation.
    pub fn reach(&mut self)
        ensures { self.new ≡ on_top reached self.old }
    {
        if let Some(innermost) = self.items.last_mut() {
            innermost.reach();
        }
    }
}
