//! Running bodies.
ghost use Rattle.std.specs.Prelude.{◌≡◌, slice_get, IsOk, IsSome, OnOk, OnErr};
ghost use Rattle.cdi_base.specs.Maps.{at};
ghost use Rattle.cdi_machine.specs.Bodies.{body_at_start, reference_at, with_answer};
ghost use Rattle.cdi_host.specs.Running.{having_proceeded, with_local};

use crate::chain::Chain;
use crate::locals::Locals;
use cdi_base::{Answer, Place, Seq, Value};
use cdi_bodies::{Answers, BodyId, View};
use cdi_store::Reference;
use std::alloc::{AllocError, Global};
use std::marker::Model;

/// A body that is running: on which instance, of which member, under which number, the references of its injected
/// parameters, the interceptors behind it in its chain, what it sees and has looked up, and whether it has proceeded
/// (Jakarta Interceptors 2.1, *InvocationContext*).
pub struct Running {
    instance: u32,
    place: Place,
    body: BodyId,
    references: Seq<Reference>,
    rest: Chain,
    view: View,
    locals: Locals,
    proceeded: bool,
}

/// In one call, so that the proof of each function that owns a running body has one step here, and not one for each of its
/// parts.
impl Drop for Running {
    fn drop(self) {
        let Self {
            instance: _instance,
            place: _place,
            body: _body,
            references: _references,
            rest: _rest,
            view: _view,
            locals: _locals,
            proceeded: _proceeded,
        } = self;
    }
}

impl Model for Running {
    ghost use Rattle.cdi_machine.specs.Programs.{Running as AnyRunning};

    ghost Value = { AnyRunning };

    ghost view = { λ r. record {
      instance = r.instance;
      place = r.place;
      body = r.body;
      references = r.references;
      rest = r.rest;
      view = r.view;
      locals = r.locals;
      proceeded = r.proceeded;
    } };
}

impl Running {
    /// A body at its start: on an instance, of a member, with the values that it takes, the references of its injected
    /// parameters, and the interceptors behind it in its chain.
    pub fn new(
        instance: u32,
        place: Place,
        body: BodyId,
        args: Seq<Value>,
        references: Seq<Reference>,
        rest: Chain,
        alloc: Global,
    ) -> Running
        ensures { result ≡ body_at_start instance place body args references rest }
    {
        Running {
            instance,
            place,
            body,
            references,
            rest,
            view: View {
                args,
                answers: Answers::empty(alloc),
            },
            locals: Locals::new(alloc),
            proceeded: false,
        }
    }

    /// The number of the instance that it runs on.
    pub fn instance(&self) -> u32
        ensures { result ≡ self.now.instance }
    {
        self.instance
    }

    /// The member that it is of.
    pub fn place(&self) -> Place
        ensures { result ≡ self.now.place }
    {
        self.place
    }

    /// Its number among the bodies.
    pub fn body(&self) -> BodyId
        ensures { result ≡ self.now.body }
    {
        self.body
    }

    /// The references of its injected parameters, in order.
    pub fn references(&self) -> &[Reference]
        ensures { result.now ≡ self.now.references }
    {
        self.references.as_slice()
    }

    /// The interceptors behind it in its chain, in order.
    pub fn rest(&self) -> &Chain
        ensures { result.now ≡ self.now.rest }
    {
        &self.rest
    }

    /// What it sees: the values that it was started with, and the answers to its acts so far.
    pub fn view(&self) -> &View
        ensures { result.now ≡ self.now.view }
    {
        &self.view
    }

    /// Whether it has proceeded.
    pub fn has_proceeded(&self) -> bool
        ensures { result ≡ self.now.proceeded }
    {
        self.proceeded
    }

    /// The reference of an injected parameter, counted from 0; empty if there is none.
    pub fn reference_of_parameter(&self, parameter: u32) -> Reference
        ensures { result ≡ reference_at (slice_get self.now.references parameter) }
    {
        match self.references.get(parameter as usize) {
            Some(reference) => *reference,
            None => Reference::Empty,
        }
    }

    /// What a lookup has found (Jakarta CDI 4.0, *Programmatic lookup*); empty if it has found nothing yet.
    pub fn local(&self, lookup: u32) -> Reference
        ensures { result ≡ reference_at (at self.now.locals lookup) }
    {
        match self.locals.get(lookup) {
            Some(reference) => reference,
            None => Reference::Empty,
        }
    }

    /// Its last act has been answered. On an error nothing changes.
    pub fn answer(&mut self, answer: Answer) -> Result<(), AllocError>
        ensures ok { OnOk result (self.new ≡ with_answer self.old answer) }
        ensures err { OnErr result (self.new ≡ self.old) }
    {
        self.view.answers.push(answer)
    }

    /// A lookup has found a reference (Jakarta CDI 4.0, *Programmatic lookup*). Only for one that had found nothing yet
    /// memory can be wanting. On an error nothing changes.
    pub fn found(&mut self, lookup: u32, reference: Reference) -> Result<(), AllocError>
        ensures ok { OnOk result (self.new ≡ with_local lookup reference self.old) }
        ensures err { OnErr result (self.new ≡ self.old) }
        ensures there { IsSome (at self.old.locals lookup) → IsOk result }
    {
        self.locals.put(lookup, reference)
    }

    /// It goes on with the rest of its chain (Jakarta Interceptors 2.1, *InvocationContext*).
    pub fn proceeds(&mut self)
        ensures { self.new ≡ having_proceeded self.old }
    {
        self.proceeded = true;
    }
}
