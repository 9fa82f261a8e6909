//! The step of a body that goes on with the rest of its chain.
ghost use Rattle.std.specs.Prelude.{◌≡◌, IfOk, OnErr};
ghost use Rattle.cdi_base.specs.declared.act.Act.TheVariants.{Proceed};
ghost use Rattle.cdi_machine.specs.Bodies.{fits, perform, repeats};
ghost use Rattle.cdi_steps.specs.Known.{IsKnownBody};
ghost use Rattle.cdi_steps.specs.Steps.{Settles};
ghost use Rattle.cdi_frames.specs.Proceeding.{having_tried, refusal_in, with_replaced};
ghost use Rattle.cdi_host.specs.Asked.{top_of};

use super::bodies::answer;
use cdi_base::{BuiltIn, InterceptorMethod, Seq, Value};
use cdi_host::{Chain, Contents, Running, Tables};
use cdi_steps::task::{Call, Completion, Frame, Next, Task};
use std::alloc::AllocError;

/// Goes on with the rest of a body's chain, with the parameters as they are or with others (Jakarta Interceptors 2.1,
/// *InvocationContext*). On an error nothing changes.
pub(super) fn proceed<T: Tables, W: Contents>(
    tables: &T,
    world: &mut W,
    running: Box<Running>,
    args: Option<Seq<Value>>,
) -> Result<Next, AllocError>
    requires { IsKnownBody (T.tables tables.now) running.value.body }
    ensures step { IfOk result (λ next. Settles (T.tables tables.now)
        (perform running.value (Proceed args)) 5 (W.world world.old) next (W.world world.new)) }
    ensures kept { OnErr result (W.world world.new ≡ W.world world.old) }
{
    let refusal = refusal_in(world, &running, &args);
    let tried = having_tried(running, &args);
    if let Some(exception) = refusal {
        drop(args);
        return answer(tables, world, tried, Completion::Threw(exception.name()));
    }
    let chain = rest_of(&tried)?;
    replace(world, args);
    Ok(Next::Needs(Task::Start(Call::Rest(chain)), Frame::Answering(tried)))
}

/// Why a body may not proceed, if it may not: with a wrong number of values, or again in a lifecycle chain (Jakarta Interceptors 2.1,
/// *InvocationContext* and *Interceptor Methods for Lifecycle Event Callbacks*).
fn refusal_in<W: Contents>(
    world: &W,
    running: &Running,
    args: &Option<Seq<Value>>,
) -> Option<BuiltIn>
    ensures { refusal_in running.now args.now (top_of (W.world world.now).invocations) ≡ result }
{
    let Some(invocation) = world.invocation() else {
        return Some(BuiltIn::IllegalStateException);
    };
    if !fits(invocation.parameters(), args) {
        return Some(BuiltIn::IllegalArgumentException);
    }
    if !repeats(invocation.role()) && running.has_proceeded() {
        return Some(BuiltIn::IllegalStateException);
    }
    None
}

/// Whether values can replace parameters: they are as many, or there are none to replace them.
fn fits(parameters: &Seq<Value>, args: &Option<Seq<Value>>) -> bool
    ensures { fits parameters.now args.now ≡ result }
{
    match args {
        None => true,
        Some(values) => values.len() == parameters.len(),
    }
}

/// Whether a chain of this kind may be run more than once (Jakarta Interceptors 2.1, *InvocationContext*).
fn repeats(role: InterceptorMethod) -> bool
    ensures { repeats role ≡ result }
{
    match role {
        InterceptorMethod::AroundInvoke => true,
        _ => false,
    }
}

/// The body, which has proceeded unless the number of its values was wrong.
fn having_tried(running: Box<Running>, args: &Option<Seq<Value>>) -> Box<Running>
    ensures { result.value ≡ having_tried running.value args.now }
{
    let mut running = running;
    if fits(&running.view().args, args) {
        running.proceeds();
    }
    running
}

/// A copy of the interceptors behind a body.
fn rest_of(running: &Running) -> Result<Chain, AllocError>
    ensures { IfOk result (λ chain. chain ≡ running.now.rest) }
{
    running.rest().clone()
}

/// The innermost invocation has other parameters, if there are any.
fn replace<W: Contents>(world: &mut W, args: Option<Seq<Value>>)
    ensures { W.world world.new ≡ with_replaced args (W.world world.old) }
{
    match args {
        None => {}
        Some(parameters) => world.replace(parameters),
    }
}
