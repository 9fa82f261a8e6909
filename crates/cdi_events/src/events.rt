//! The steps by which events are fired.
ghost use Rattle.std.specs.Prelude.{◌≡◌, [], ◌∷◌, IfOk};
ghost use Rattle.cdi_steps.specs.Words.{class_of, qualifier_of, qualifiers_of, scope_text};
ghost use Rattle.cdi_steps.specs.Steps.{Moves};
ghost use Rattle.cdi_events.specs.Events.{event_of};

use cdi_base::{BuiltIn, Entry, MemberValue, Name, Scope, Seq, Text, Use, Value};
use cdi_host::{Contents, Tables};
use cdi_steps::task::{Call, ContainerEvent, Continuation, Event, Next, Task};
use std::alloc::{AllocError, Global};

/// Fires an event of the container itself (Jakarta CDI 4.0, *Context management for built-in scopes*, *Startup event* and *Shutdown
/// event*). Memory can be wanting.
pub fn fire<T: Tables, W: Contents>(
    tables: &T,
    world: &W,
    event: ContainerEvent,
) -> Result<Next, AllocError>
    ensures { IfOk result (λ next. Moves (T.tables tables.now) (Task.Start (Call.Fire event))
        (W.world world.now) next (W.world world.now)) }
{
    let fired = boxed(world.alloc(), event_of(world.alloc(), event)?)?;
    publish(tables, world, fired)
}

/// Fires an event of a body (Jakarta CDI 4.0, *Firing events*): its entry is due, and then it is delivered. Memory can be wanting.
pub fn publish<T: Tables, W: Contents>(
    _tables: &T,
    _world: &W,
    event: Box<Event>,
) -> Result<Next, AllocError>
    ensures { IfOk result (λ next. Moves (T.tables _tables.now) (Task.Start (Call.Publish event))
        (W.world _world.now) next (W.world _world.now)) }
{
    let entry = entry_of(&event)?;
    Ok(Next::Writes(entry, Continuation::Publishing(event)))
}

/// The entry of an event.
#[tactic(auto, using(cdi_base::proofs::Clones::same_items))]
fn entry_of(event: &Event) -> Result<Entry, AllocError>
    ensures { IfOk result (λ entry. entry ≡ Entry.Event event.now.class event.now.qualifiers) }
{
    Ok(Entry::Event {
        class: event.class,
        qualifiers: event.qualifiers.clone()?,
    })
}

/// An event, in a box.
fn boxed(alloc: Global, event: Event) -> Result<Box<Event>, AllocError>
    ensures { IfOk result (λ boxed. boxed.value ≡ event) }
{
    Ok(Box::new(alloc, event)?)
}

// ---- events of the container itself

/// An event of the container itself.
fn event_of(alloc: Global, event: ContainerEvent) -> Result<Event, AllocError>
    ensures { IfOk result (λ fired. fired ≡ event_of event) }
{
    Ok(Event {
        class: class_of(event),
        qualifiers: qualifiers_of(alloc, event)?,
        value: Value::Null,
    })
}

/// Its class: an event of a context has none of its own.
fn class_of(event: ContainerEvent) -> Name
    ensures { result ≡ class_of event }
{
    match event {
        ContainerEvent::Startup => BuiltIn::Startup.name(),
        ContainerEvent::Shutdown => BuiltIn::Shutdown.name(),
        ContainerEvent::Initialized(_scope) => BuiltIn::Object.name(),
        ContainerEvent::BeforeDestroyed(_scope) => BuiltIn::Object.name(),
        ContainerEvent::Destroyed(_scope) => BuiltIn::Object.name(),
    }
}

/// Its qualifiers: an event of a context has one, which names the scope.
fn qualifiers_of(alloc: Global, event: ContainerEvent) -> Result<Seq<Use>, AllocError>
    ensures { IfOk result (λ uses. uses ≡ qualifiers_of event) }
{
    match event {
        ContainerEvent::Initialized(scope) => of_context(alloc, BuiltIn::Initialized, scope),
        ContainerEvent::BeforeDestroyed(scope) => {
            of_context(alloc, BuiltIn::BeforeDestroyed, scope)
        }
        ContainerEvent::Destroyed(scope) => of_context(alloc, BuiltIn::Destroyed, scope),
        ContainerEvent::Startup | ContainerEvent::Shutdown => Ok(Seq::empty(alloc)),
    }
}

/// The qualifier of an event of a context.
fn of_context(alloc: Global, what: BuiltIn, scope: Scope) -> Result<Seq<Use>, AllocError>
    ensures { IfOk result (λ uses. uses ≡ qualifier_of what scope ∷ []) }
{
    let mut members = Seq::empty(alloc);
    members.push(MemberValue {
        name: BuiltIn::Value.name(),
        value: Value::Text(Text::from_str(alloc, scope_text(scope))?),
    })?;
    let mut qualifiers = Seq::empty(alloc);
    qualifiers.push(Use {
        name: what.name(),
        members,
    })?;
    Ok(qualifiers)
}

/// The name of a scope (Jakarta CDI 4.0, *Built-in scope types*).
fn scope_text(scope: Scope) -> &'static str
    ensures { result.now ≡ scope_text scope }
{
    match scope {
        Scope::ApplicationScoped => "ApplicationScoped",
        Scope::SessionScoped => "SessionScoped",
        Scope::RequestScoped => "RequestScoped",
        Scope::Dependent => "Dependent",
    }
}
