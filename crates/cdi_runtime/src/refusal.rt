//! Which commands are refused.
ghost use Rattle.std.specs.Prelude.{◌≡◌, None, option_map};
ghost use Rattle.cdi_host.specs.Asked.{machine_resolution};
ghost use Rattle.std.specs.Option.{option_copied};
ghost use Rattle.cdi_contexts.specs.Refusals.{first_that_holds};
ghost use Rattle.cdi_machine.specs.Container as machine;
ghost use Rattle.cdi_run_tables.specs.Machine.{machine_tables};
ghost use Rattle.cdi_steps.specs.Known.{IsResolved, JobIsResolved, JobTellsRightly, KnownJob, TellsRightly};
ghost use Rattle.cdi_steps.specs.Words.{command_of};
ghost use Rattle.cdi_machine.specs.Told.{method_told};
ghost use Rattle.cdi_runtime.specs.Standing.{IsServable};
ghost use Rattle.cdi_runtime.specs.Refusals.{bean_refusal, contexts_refusal, event_refusal, method_refusal};
ghost use Rattle.cdi_runtime.specs.Refusals.{known_resolution, resolved_refusal, use_refusal};

use crate::runtime::Runtime;
use crate::served_tables::ServedTables;
use cdi_base::{Refusal, Text};
use cdi_host::{Method, Resolution, Tables};
use cdi_machine::Driver;
use cdi_run_tables::RunTables;
use cdi_steps::{BeanPurpose, BeanUse, Event, Job};
use cdi_world::World;
use std::alloc::Global;

/// Why a method that was looked for can't be called with so many values.
fn refuses_method(method: Option<&Method>, count: usize) -> Option<Refusal>
    ensures { result ≡ method_refusal (option_map (λ m. method_told m.now) method.entry) count }
{
    let Some(method) = method else {
        return Some(Refusal::NoMethod);
    };
    if method.count as usize != count {
        return Some(Refusal::WrongCount);
    }
    None
}

/// Why what a command does with the bean that has an index is refused: a call of a method that it hasn't with so many values, or a
/// read of a bean that is no product.
fn refuses_purpose(tables: &ServedTables, bean: u32, purpose: &BeanPurpose) -> Option<Refusal>
    ensures { result ≡ bean_refusal (machine_tables tables.now) bean purpose.now }
{
    match purpose {
        BeanPurpose::Call { method, args } => {
            refuses_method(tables.method(bean, *method), args.len())
        }
        BeanPurpose::Read => match tables.product(bean) {
            Some(_product) => None,
            None => Some(Refusal::NoMethod),
        },
    }
}

/// The same for what was resolved. What resolves to no bean, or to several, isn't refused: the use throws.
fn refuses_resolved(
    tables: &ServedTables,
    resolution: Resolution,
    purpose: &BeanPurpose,
) -> Option<Refusal>
    ensures { result ≡ resolved_refusal
        (machine_tables tables.now) (machine_resolution resolution) purpose.now }
{
    match resolution {
        Resolution::One(bean) => refuses_purpose(tables, bean, purpose),
        Resolution::Nothing | Resolution::Many => None,
    }
}

/// What the type and the qualifiers of a use resolve to, if all their names are known. It is remembered, and isn't asked for again
/// if the use tells it.
fn resolution_for(alloc: Global, tables: &mut ServedTables, used: &BeanUse) -> Option<Resolution>
    requires { TellsRightly (machine_tables tables.old) used.now }
    ensures told { option_map machine_resolution result
        ≡ known_resolution (machine_tables tables.old) used.now }
    ensures kept { tables.new ≡ tables.old }
    ensures servable { IsServable tables.old }
{
    let run_tables = tables.run_tables();
    if let Some(resolution) = used.resolved {
        return Some(resolution);
    }
    let qualifiers = used.qualifiers.as_slice();
    if !run_tables.is_known(used.bean_type, qualifiers) {
        return None;
    }
    Some(tables.ask(alloc, used.bean_type, qualifiers))
}

/// Why the use of the bean with a type and qualifiers is refused: one of these isn't known, or they resolve to a bean with which
/// that can't be done. What they resolve to is written into the use, if they are known.
fn refuses_use(alloc: Global, tables: &mut ServedTables, used: &mut BeanUse) -> Option<Refusal>
    requires { TellsRightly (machine_tables tables.old) used.old }
    ensures refusal { result ≡ use_refusal (machine_tables tables.old) used.old }
    ensures used { used.new ≡ record used.old { resolved = used.new.resolved } }
    ensures rightly { TellsRightly (machine_tables tables.old) used.new }
    ensures resolved { result ≡ None → IsResolved (machine_tables tables.old) used.new }
    ensures kept { tables.new ≡ tables.old }
    ensures servable { IsServable tables.old }
{
    let Some(resolution) = resolution_for(alloc, tables, used) else {
        return Some(Refusal::UnknownName);
    };
    used.resolved = Some(resolution);
    refuses_resolved(tables, resolution, &used.purpose)
}

/// Why an event is refused: its class with its qualifiers is none that can be fired (Jakarta CDI 4.0, *Event types and qualifier
/// types*).
fn refuses_event(tables: &RunTables, event: &Event) -> Option<Refusal>
    ensures { result ≡ event_refusal
        (machine_tables tables.now) event.now.class event.now.qualifiers }
{
    if tables.is_event(event.class, event.qualifiers.as_slice()) {
        return None;
    }
    Some(Refusal::UnknownName)
}

/// Why what a command asks for is refused by the contexts, if it is: a request or a session that isn't there, or can't begin.
fn refuses_in_contexts(world: &World, job: &Job) -> Option<Refusal>
    ensures { result ≡ contexts_refusal world.now.contexts (command_of job.now) }
{
    match job {
        Job::Boot | Job::Live | Job::Shutdown => None,
        Job::Begin(names) => {
            world.refuses_begin(names.request.as_str(), text_of(names.session.as_ref()))
        }
        Job::End { request } => world.refuses_in(Some(request.as_str())),
        Job::Invalidate { session } => world.refuses_invalidate(session.as_str()),
        Job::Use {
            request,
            used: _used,
        } => world.refuses_in(text_of(request.as_ref())),
        Job::Fire {
            request,
            event: _event,
        } => world.refuses_in(text_of(request.as_ref())),
    }
}

/// A name, if there is one.
fn text_of(name: Option<&Text>) -> Option<&str>
    ensures { option_copied result ≡ option_copied name.entry }
{
    match name {
        Some(name) => Some(name.as_str()),
        None => None,
    }
}

impl<D: Driver> Runtime<D> {
    /// Why what a command asks for is refused, if it is: the first refusal that holds, in the order of [`Refusal`]. A
    /// container that has halted or is down refuses all, and none is ever busy. What isn't refused can be carried out: what the
    /// use of a bean resolves to is written into the job, unless it tells that already. Nothing else changes.
    pub fn refusal(&mut self, halted: bool, job: &mut Job) -> Option<Refusal>
        requires { JobTellsRightly (machine_tables self.old.tables) job.old }
        ensures refusal { result ≡ machine.refusal (machine_tables self.old.tables)
            (machine.idle_state self.old.world halted) (command_of job.old) }
        ensures command { command_of job.new ≡ command_of job.old }
        ensures rightly { JobTellsRightly (machine_tables self.old.tables) job.new }
        ensures resolved { result ≡ None
            → JobIsResolved (machine_tables self.old.tables) job.new }
        ensures known { result ≡ None
            → KnownJob (machine_tables self.old.tables) self.old.world job.new }
        ensures kept { self.new ≡ self.old }
    {
        if halted {
            return Some(Refusal::Halted);
        }
        if self.world.is_down() {
            return Some(Refusal::Down);
        }
        if let Some(refusal) = refuses_in_contexts(&self.world, job) {
            return Some(refusal);
        }
        match job {
            Job::Use {
                request: _request,
                used,
            } => refuses_use(self.alloc, &mut self.tables, &mut **used),
            Job::Fire {
                request: _request,
                event,
            } => refuses_event(self.tables.run_tables(), event),
            _ => None,
        }
    }
}
