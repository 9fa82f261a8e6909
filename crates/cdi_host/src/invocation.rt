//! Invocations.
ghost use Rattle.std.specs.Prelude.{◌≡◌, IsOk, IsSome, OnOk, OnErr};
ghost use Rattle.std.specs.Option.{option_copied};
ghost use Rattle.cdi_base.specs.Maps.{at};
ghost use Rattle.cdi_machine.specs.Bodies.{invocation_at_start};
ghost use Rattle.cdi_host.specs.Invocation.{reached, with_data, with_parameters, with_references};

use crate::members::Members;
use cdi_base::{Fields, InterceptorMethod, Name, Seq, Value};
use cdi_machine::Code;
use cdi_store::Reference;
use std::alloc::{AllocError, Global};
use std::marker::Model;

/// Bodies under way on a target, at the end of a chain of interceptors: the values that they take, the references of their
/// injected parameters, and the context data (Jakarta Interceptors 2.1, *InvocationContext*).
pub struct Invocation {
    target: u32,
    role: InterceptorMethod,
    members: Members,
    parameters: Seq<Value>,
    references: Seq<Reference>,
    /// Most invocations keep nothing, and need no map.
    data_of: Option<Box<Fields>>,
    completed: bool,
    alloc: Global,
}

/// In one call, so that the proof of each function that owns an invocation has one step here, and not one for each of its
/// parts.
impl Drop for Invocation {
    fn drop(self) {
        let Self {
            target: _target,
            role: _role,
            members: _members,
            parameters: _parameters,
            references: _references,
            data_of: _data_of,
            completed: _completed,
            alloc: _alloc,
        } = self;
    }
}

impl Model for Invocation {
    ghost use Rattle.std.specs.Prelude.{option_map};
    ghost use Rattle.cdi_machine.specs.World.{Invocation as AnyInvocation};
    ghost use Rattle.cdi_host.specs.FirstUse.{or_empty};

    ghost Value = { AnyInvocation };

    ghost view = { λ i. record {
      target = i.target;
      role = i.role;
      members = i.members;
      parameters = i.parameters;
      references = i.references;
      data_of = or_empty (option_map (λ b. b.value) i.data_of);
      completed = i.completed;
    } };
}

/// The value at a key of context data, if one is kept there.
fn value_in(kept: &Fields, key: Name) -> Option<&Value>
    ensures { option_copied result ≡ at kept.now key }
{
    if kept.has(key) {
        Some(kept.get(key))
    } else {
        None
    }
}

impl Invocation {
    /// An invocation at its start: of these members on a target, with the values that they take. It has no references
    /// and no context data yet.
    pub fn new(
        target: u32,
        role: InterceptorMethod,
        members: Members,
        parameters: Seq<Value>,
        alloc: Global,
    ) -> Invocation
        ensures { result ≡ invocation_at_start target role members parameters }
    {
        Invocation {
            target,
            role,
            members,
            parameters,
            references: Seq::empty(alloc),
            data_of: None,
            completed: false,
            alloc,
        }
    }

    /// The number of the instance that it is on.
    pub fn target(&self) -> u32
        ensures { result ≡ self.now.target }
    {
        self.target
    }

    /// What kind of chain it is at the end of.
    pub fn role(&self) -> InterceptorMethod
        ensures { result ≡ self.now.role }
    {
        self.role
    }

    /// The bodies at the chain's end, in the order in which they run.
    pub fn members(&self) -> &[Code]
        ensures { result.now ≡ self.now.members }
    {
        self.members.as_slice()
    }

    /// The values that the bodies take.
    pub fn parameters(&self) -> &Seq<Value>
        ensures { result.now ≡ self.now.parameters }
    {
        &self.parameters
    }

    /// The references of the injected parameters, in order.
    pub fn references(&self) -> &Seq<Reference>
        ensures { result.now ≡ self.now.references }
    {
        &self.references
    }

    /// The value at a key of the context data, if one is kept there (Jakarta Interceptors 2.1, *InvocationContext*).
    pub fn data_at(&self, key: Name) -> Option<&Value>
        ensures { option_copied result ≡ at self.now.data_of key }
    {
        match &self.data_of {
            Some(data) => value_in(data, key),
            None => None,
        }
    }

    /// Whether the chain's end has been reached.
    pub fn is_completed(&self) -> bool
        ensures { result ≡ self.now.completed }
    {
        self.completed
    }

    /// The injected parameters have these references (Jakarta CDI 4.0, *Dependency injection*).
    pub fn provide(&mut self, references: Seq<Reference>)
        ensures { self.new ≡ with_references references self.old }
    {
        self.references = references;
    }

    /// The bodies take other values (Jakarta Interceptors 2.1, *InvocationContext*: `setParameters`).
    pub fn replace(&mut self, parameters: Seq<Value>)
        ensures { self.new ≡ with_parameters parameters self.old }
    {
        self.parameters = parameters;
    }

    /// Keeps a value in the context data (Jakarta Interceptors 2.1, *InvocationContext*: `getContextData`). Only for a key
    /// that has none yet memory can be wanting. On an error nothing changes.
    pub fn keep(&mut self, key: Name, value: Value) -> Result<(), AllocError>
        ensures ok { OnOk result (self.new ≡ with_data key value self.old) }
        ensures err { OnErr result (self.new ≡ self.old) }
        ensures there { IsSome (at self.old.data_of key) → IsOk result }
    {
        if let Some(data) = &mut self.data_of {
            return data.put(key, value);
        }
        let mut data = Fields::new(self.alloc);
        data.put(key, value)?;
        self.data_of = Some(Box::new(self.alloc, data)?);
        Ok(())
    }

    /// The chain's end has been reached.
    pub fn reach(&mut self)
        ensures { self.new ≡ reached self.old }
    {
        self.completed = true;
    }
}
