//! The world of a container.
ghost use Rattle.std.specs.Prelude.{◌≡◌, length, map, IfOk};
ghost use Rattle.std.specs.Option.{is_some};
ghost use Rattle.cdi_base.specs.Maps.{at};
ghost use Rattle.cdi_machine.specs.World.{at_begin, before_boot};

mod contents;
mod homes;
mod idle;
mod refusals;

use crate::environment::Environment;
use cdi_base::{Entry, Limits, Seq};
use cdi_contexts::Contexts;
use cdi_host::{Invocation, Stack};
use cdi_store::Store;
use std::alloc::{AllocError, Global};
use std::marker::Model;

/// What a container holds: its live instances by number, its contexts, and of the running command
/// its environment, its invocations, the instances with a running body, what is borrowed, and its
/// entries.
pub struct World {
    store: Store,
    contexts: Contexts,
    down: bool,
    environment: Environment,
    invocations: Stack<Invocation>,
    bodies: Stack<u32>,
    temporaries: Stack<Seq<u32>>,
    trace: Vec<Entry>,
    ticks: u32,
    depth: u32,
    alloc: Global,
}

/// In one call, so that the proof of each function that owns a world has one step here, and not one for each of its parts.
impl Drop for World {
    fn drop(self) {
        let Self {
            store: _store,
            contexts: _contexts,
            down: _down,
            environment: _environment,
            invocations: _invocations,
            bodies: _bodies,
            temporaries: _temporaries,
            trace: _trace,
            ticks: _ticks,
            depth: _depth,
            alloc: _alloc,
        } = self;
    }
}

impl Model for World {
    ghost use Rattle.cdi_machine.specs.World.{World as AnyWorld};

    ghost Value = { AnyWorld };

    ghost view = { λ w. record {
      instances = w.store.instances;
      next = w.store.next;
      contexts = w.contexts.contexts;
      down = w.down;
      environment = w.environment;
      invocations = w.invocations;
      bodies = w.bodies;
      temporaries = w.temporaries;
      trace = w.trace.items;
      ticks = w.ticks;
      depth = w.depth;
    } };
}

impl World {
    /// The world before the boot: the application context alone, and nothing in it.
    pub fn new(alloc: Global, limits: Limits) -> World
        ensures { result ≡ before_boot limits.ticks limits.depth }
    {
        World {
            store: Store::new(alloc),
            contexts: Contexts::new(alloc),
            down: false,
            environment: Environment::none(),
            invocations: Stack::new(alloc),
            bodies: Stack::new(alloc),
            temporaries: Stack::new(alloc),
            trace: Vec::new(alloc),
            ticks: limits.ticks,
            depth: limits.depth,
            alloc,
        }
    }

    /// A command begins: it has no entry yet, and no request and no session.
    pub fn begin(&mut self)
        ensures { self.new ≡ at_begin self.old }
    {
        self.trace.clear();
        self.environment = Environment::none();
    }

    /// The numbers of the live instances, ascending.
    pub fn live_numbers(&self) -> Result<Seq<u32>, AllocError>
        ensures { IfOk result (λ numbers. numbers ≡ map (λ p. p.0) self.now.instances) }
    {
        Ok(Seq::new(self.store.numbers(self.alloc)?))
    }

    /// How many instances are live.
    pub fn live_count(&self) -> usize
        ensures { result ≡ length self.now.instances }
    {
        self.store.len()
    }

    /// Whether the instance with a number is live.
    pub fn is_live(&self, number: u32) -> bool
        ensures { result ≡ is_some (at self.now.instances number) }
    {
        self.store.key(number).is_some()
    }

    /// Whether the container is down.
    pub fn is_down(&self) -> bool
        ensures { result ≡ self.now.down }
    {
        self.down
    }

    /// The entries of the running command.
    pub fn trace(&self) -> &[Entry]
        ensures { result.now ≡ self.now.trace }
    {
        &self.trace
    }
}
