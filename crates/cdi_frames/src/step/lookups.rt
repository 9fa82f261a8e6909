//! The steps of programmatic lookup (Jakarta CDI 4.0, *Programmatic lookup*).
ghost use Rattle.std.specs.Prelude.{◌≡◌, IfOk};
ghost use Rattle.cdi_base.specs.declared.act.Act.TheVariants.{Find};
ghost use Rattle.cdi_base.specs.declared.act.Act.TheVariants.{Destroy as ActDestroy};
ghost use Rattle.cdi_machine.specs.World.{instance_at};
ghost use Rattle.cdi_machine.specs.Programs.{Gave};
ghost use Rattle.cdi_machine.specs.Bodies.{answer_find, perform};
ghost use Rattle.cdi_machine.specs.DestroyAct.{destroy_by, is_made};
ghost use Rattle.cdi_steps.specs.Known.{IsKnownBody};
ghost use Rattle.cdi_steps.specs.Steps.{GoesOn, Settles};
ghost use Rattle.cdi_frames.specs.Acts.{bean_looked_up, destroy_found, StopsAlike};

use super::bodies::{answer, missed, threw, with_answer};
use cdi_base::{Answer, BuiltIn, Value};
use cdi_bodies::BodyId;
use cdi_contexts::Held;
use cdi_host::{Contents, Resolution, Running, Tables};
use cdi_steps::creation::reference_to;
use cdi_steps::obtaining::is_normal;
use cdi_steps::task::{Call, Completion, Frame, Given, Next, Task};
use cdi_store::{Owner, Phase, Reference};
use std::alloc::AllocError;

// ---- find

/// Looks a bean up: what it finds is a client proxy, or a new instance of a dependent bean, which belongs to the body's own
/// instance.
pub(super) fn find<T: Tables, W: Contents>(
    tables: &T,
    world: &W,
    running: Box<Running>,
    lookup: u32,
) -> Result<Next, AllocError>
    requires { IsKnownBody (T.tables tables.now) running.value.body }
    ensures { IfOk result (λ next. Settles (T.tables tables.now)
        (perform running.value (Find lookup)) 5 (W.world world.now) next (W.world world.now)) }
{
    let bean = match looked_up(tables, running.body(), lookup) {
        Ok(bean) => bean,
        Err(exception) => return answer(tables, world, running, threw(exception)),
    };
    let Some(head) = tables.bean(bean) else {
        return answer(tables, world, running, missed());
    };
    if is_normal(head.scope) {
        return found(tables, world, running, lookup, Reference::Proxy(bean));
    }
    let owner = Owner::Instance(running.instance());
    let call = Task::Start(Call::Create { bean, owner });
    Ok(Next::Needs(call, Frame::Finding { running, lookup }))
}

/// The bean to which a lookup resolves (Jakarta CDI 4.0, *Typesafe resolution*), or the exception.
fn looked_up<T: Tables>(tables: &T, body: BodyId, lookup: u32) -> Result<u32, BuiltIn>
    ensures { bean_looked_up (T.tables tables.now) body lookup ≡ result }
{
    match tables.lookup(body, lookup) {
        Some(Resolution::One(bean)) => Ok(bean),
        Some(Resolution::Nothing) => Err(BuiltIn::UnsatisfiedResolutionException),
        Some(Resolution::Many) => Err(BuiltIn::AmbiguousResolutionException),
        None => Err(BuiltIn::IllegalStateException),
    }
}

/// A body goes on with what a lookup has found.
fn found<T: Tables, W: Contents>(
    _tables: &T,
    _world: &W,
    running: Box<Running>,
    lookup: u32,
    reference: Reference,
) -> Result<Next, AllocError>
    requires { IsKnownBody (T.tables _tables.now) running.value.body }
    ensures { IfOk result (λ next. Settles (T.tables _tables.now)
        (answer_find running.value lookup (Gave reference)) 2
        (W.world _world.now) next (W.world _world.now)) }
{
    let mut running = running;
    running.found(lookup, reference)?;
    let running = with_answer(running, Answer::Found(lookup))?;
    Ok(Next::Goes(Task::Start(Call::Acts(running))))
}

/// A body goes on with what was made for a lookup.
pub(crate) fn found_made<T: Tables, W: Contents>(
    tables: &T,
    world: &W,
    running: Box<Running>,
    lookup: u32,
    given: Given,
) -> Result<Next, AllocError>
    requires { IsKnownBody (T.tables tables.now) running.value.body }
    ensures { IfOk result (λ next. GoesOn (T.tables tables.now) (Frame.Finding running lookup)
        (Completion.Gave given) (W.world world.now) next (W.world world.now)) }
{
    found(tables, world, running, lookup, reference_to(given))
}

// ---- destroy

/// Destroys what a lookup has found (`Instance.destroy`), unless it is in use.
pub(super) fn destroy<T: Tables, W: Contents>(
    tables: &T,
    world: &W,
    running: Box<Running>,
    local: u32,
) -> Result<Next, AllocError>
    requires { IsKnownBody (T.tables tables.now) running.value.body }
    ensures { IfOk result (λ next. Settles (T.tables tables.now)
        (perform running.value (ActDestroy local)) 5
        (W.world world.now) next (W.world world.now)) }
{
    let number = match to_destroy(tables, world, running.local(local)) {
        Ok(Some(number)) => number,
        Ok(None) => {
            let done = Completion::Gave(Given::Result(Value::Null));
            return answer(tables, world, running, done);
        }
        Err(exception) => return answer(tables, world, running, threw(exception)),
    };
    if !world.is_idle(number) {
        return answer(tables, world, running, missed());
    }
    let call = Task::Start(Call::Destroy { number });
    Ok(Next::Needs(call, Frame::Answering(running)))
}

/// The number of the instance that is to be destroyed, if there is one, or the exception.
fn to_destroy<T: Tables, W: Contents>(
    tables: &T,
    world: &W,
    reference: Reference,
) -> Result<Option<u32>, BuiltIn>
    ensures { StopsAlike (T.tables tables.now) (W.world world.now)
        (destroy_by reference) (destroy_found result) }
{
    match reference {
        Reference::Proxy(bean) => held_for(tables, world, bean),
        Reference::Direct(number) => {
            if is_made(world, number) {
                Ok(Some(number))
            } else {
                Err(BuiltIn::IllegalStateException)
            }
        }
        Reference::Empty => Err(BuiltIn::NullPointerException),
    }
}

/// Whether an instance is made, and its destruction hasn't begun.
fn is_made<W: Contents>(world: &W, number: u32) -> bool
    ensures { is_made (instance_at (W.world world.now) number) ≡ result }
{
    match world.instance(number) {
        Some(instance) => match instance.phase {
            Phase::Ready => true,
            Phase::New | Phase::Leaving => false,
        },
        None => false,
    }
}

/// The number of a bean's contextual instance, if there is one, or the exception.
fn held_for<T: Tables, W: Contents>(
    tables: &T,
    world: &W,
    bean: u32,
) -> Result<Option<u32>, BuiltIn>
    ensures { StopsAlike (T.tables tables.now) (W.world world.now)
        (destroy_by (Reference.Proxy bean)) (destroy_found result) }
{
    let Some(head) = tables.bean(bean) else {
        return Err(BuiltIn::IllegalStateException);
    };
    if world.status(head.scope).is_none() {
        return Err(BuiltIn::ContextNotActiveException);
    }
    match world.held(head.scope, bean) {
        Some(Held::Is(number)) => Ok(Some(number)),
        Some(Held::Making) => Err(BuiltIn::IllegalStateException),
        None => Ok(None),
    }
}
