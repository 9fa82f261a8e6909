//! The steps of acts.
ghost use Rattle.std.specs.Prelude.{◌≡◌, IfOk, OnErr};
ghost use Rattle.cdi_base.specs.Maps.{at};
ghost use Rattle.cdi_base.specs.declared.act.Act.TheVariants.{Keep, Peek};
ghost use Rattle.cdi_base.specs.declared.act.Act.TheVariants.{Fire as ActFire};
ghost use Rattle.cdi_machine.specs.World.{instance_at};
ghost use Rattle.cdi_machine.specs.Bodies.{perform, value_at};
ghost use Rattle.cdi_host.specs.Asked.{reference_in};
ghost use Rattle.cdi_steps.specs.Known.{IsKnownBody};
ghost use Rattle.cdi_steps.specs.Steps.{Steps, Settles};
ghost use Rattle.cdi_frames.specs.Acts.{reference_via, use_act};

use super::bodies::{answer, missed, with_answer};
use cdi_base::{Answer, Name, Seq, Use, Value, Via};
use cdi_host::{Contents, Invocation, Running, Tables};
use cdi_steps::task::{Call, Event, Frame, Next, Purpose, ReferenceUse, Task};
use cdi_store::Reference;
use std::alloc::AllocError;

// ---- uses of references

/// Uses a reference of a body: an injected field of its own instance, an injected parameter, or what a lookup has found (Jakarta
/// CDI 4.0, *Contextual reference for a bean*).
pub(super) fn use_through<T: Tables, W: Contents>(
    tables: &T,
    world: &W,
    running: Box<Running>,
    via: Via,
    purpose: Purpose,
) -> Result<Next, AllocError>
    requires { IsKnownBody (T.tables tables.now) running.value.body }
    ensures { IfOk result (λ next. Steps (T.tables tables.now)
        (perform running.value (use_act via purpose)) 5
        (W.world world.now) next (W.world world.now)) }
{
    let Some(reference) = reference_via(world, &running, via) else {
        return answer(tables, world, running, missed());
    };
    let part = Task::Through(ReferenceUse { reference, purpose });
    Ok(Next::Needs(part, Frame::Answering(running)))
}

/// The reference by which a body reaches another instance. A field that isn't injected yet and a local that isn't found yet are
/// empty.
fn reference_via<W: Contents>(world: &W, running: &Running, via: Via) -> Option<Reference>
    ensures { reference_via (instance_at (W.world world.now) running.now.instance) running.now via
        ≡ result }
{
    match via {
        Via::Field(field) => reference_of(world, running.instance(), field),
        Via::Param(parameter) => Some(running.reference_of_parameter(parameter)),
        Via::Local(lookup) => Some(running.local(lookup)),
    }
}

/// The reference of an injected field of a live instance, which is empty as long as the field isn't injected (Jakarta CDI 4.0,
/// *Injected fields*).
fn reference_of<W: Contents>(world: &W, number: u32, field: Name) -> Option<Reference>
    ensures { reference_in (instance_at (W.world world.now) number) field ≡ result }
{
    match world.instance(number)?.references.get(field) {
        Some(reference) => Some(reference),
        None => Some(Reference::Empty),
    }
}

// ---- context data

/// Keeps a value in the context data of the innermost invocation (Jakarta Interceptors 2.1, *InvocationContext*).
pub(super) fn keep<T: Tables, W: Contents>(
    _tables: &T,
    world: &mut W,
    running: Box<Running>,
    key: Name,
    value: Value,
) -> Result<Next, AllocError>
    requires { IsKnownBody (T.tables _tables.now) running.value.body }
    ensures step { IfOk result (λ next. Settles (T.tables _tables.now)
        (perform running.value (Keep key value)) 5 (W.world world.old) next (W.world world.new)) }
    ensures kept { OnErr result (W.world world.new ≡ W.world world.old) }
{
    let running = with_answer(running, Answer::Done(Value::Null))?;
    world.keep(key, value)?;
    Ok(Next::Goes(Task::Start(Call::Acts(running))))
}

/// Reads a value of the context data of the innermost invocation (Jakarta Interceptors 2.1, *InvocationContext*).
pub(super) fn peek<T: Tables, W: Contents>(
    tables: &T,
    world: &W,
    running: Box<Running>,
    key: Name,
) -> Result<Next, AllocError>
    requires { IsKnownBody (T.tables tables.now) running.value.body }
    ensures { IfOk result (λ next. Settles (T.tables tables.now)
        (perform running.value (Peek key)) 5 (W.world world.now) next (W.world world.now)) }
{
    let Some(invocation) = world.invocation() else {
        return answer(tables, world, running, missed());
    };
    let value = kept_at(invocation, key)?;
    let running = with_answer(running, Answer::Done(value))?;
    Ok(Next::Goes(Task::Start(Call::Acts(running))))
}

/// The value at a key of an invocation's context data, or null.
fn kept_at(invocation: &Invocation, key: Name) -> Result<Value, AllocError>
    ensures { IfOk result (λ value. value ≡ value_at (at invocation.now.data_of key)) }
{
    match invocation.data_at(key) {
        Some(value) => value.clone(),
        None => Ok(Value::Null),
    }
}

// ---- events

/// Fires an event (Jakarta CDI 4.0, *Firing events*).
pub(super) fn fire<T: Tables, W: Contents>(
    _tables: &T,
    world: &W,
    running: Box<Running>,
    class: Name,
    qualifiers: Seq<Use>,
    value: Value,
) -> Result<Next, AllocError>
    requires { IsKnownBody (T.tables _tables.now) running.value.body }
    ensures { IfOk result (λ next. Settles (T.tables _tables.now)
        (perform running.value (ActFire class qualifiers value)) 5
        (W.world world.now) next (W.world world.now)) }
{
    let event = Event {
        class,
        qualifiers,
        value,
    };
    let call = Task::Start(Call::Publish(Box::new(world.alloc(), event)?));
    Ok(Next::Needs(call, Frame::Answering(running)))
}
