//! The steps of chains of interceptors.
ghost use Rattle.std.specs.Prelude.{◌≡◌, ◌∷◌, [], IfOk, OnErr};
ghost use Rattle.cdi_machine.specs.World.{instance_at};
ghost use Rattle.cdi_machine.specs.Bodies.{body_at_start, is_of};
ghost use Rattle.cdi_steps.specs.Words.{given_at_end};
ghost use Rattle.cdi_steps.specs.Steps.{Moves};
ghost use Rattle.cdi_steps.specs.Chains.{interceptor_in};
ghost use Rattle.cdi_steps.specs.Known.{AllInvoked};
ghost use Rattle.cdi_steps.specs.declared.task.Outcome.{Outcome};
ghost use Rattle.cdi_steps.specs.declared.task.Completion.{Completion};

use crate::ends::{given, missing, null};
use crate::invocations::run_end;
use crate::task::{Call, Frame, Given, Next, Task};
use cdi_base::{InterceptorMethod, Seq, Value};
use cdi_host::{Chain, Code, Contents, Running, Tables};
use cdi_store::Component;
use std::alloc::{AllocError, Global};

/// Runs the rest of the innermost invocation's chain: the method of its first interceptor, or what stands at its end (Jakarta
/// Interceptors 2.1, *InvocationContext*).
pub fn rest<T: Tables, W: Contents>(
    tables: &T,
    world: &mut W,
    chain: Chain,
) -> Result<Next, AllocError>
    requires { AllInvoked (T.tables tables.now) (W.world world.old) }
    ensures step { IfOk result (λ next. Moves (T.tables tables.now) (Task.Start (Call.Rest chain))
        (W.world world.old) next (W.world world.new)) }
    ensures kept { OnErr result (W.world world.new ≡ W.world world.old) }
{
    let mut chain = chain;
    match chain.take_first() {
        None => run_end(tables, world),
        Some(interceptor) => run_interceptor(tables, world, interceptor, chain),
    }
}

/// Runs the method of an interceptor, on the target's own instance of it, behind which the others of its chain stand (Jakarta
/// Interceptors 2.1, *Interceptor Life Cycle* and *InvocationContext*).
fn run_interceptor<T: Tables, W: Contents>(
    tables: &T,
    world: &W,
    interceptor: u32,
    others: Chain,
) -> Result<Next, AllocError>
    ensures { IfOk result (λ next. Moves (T.tables tables.now)
        (Task.Start (Call.Rest (interceptor ∷ others)))
        (W.world world.now) next (W.world world.now)) }
{
    let Some(invocation) = world.invocation() else {
        return Ok(missing());
    };
    let role = invocation.role();
    let Some(code) = tables.interceptor_method(interceptor, role) else {
        return Ok(missing());
    };
    let Some(number) = instance_of(world, invocation.target(), interceptor) else {
        return Ok(missing());
    };
    let running = method_at_start(world.alloc(), number, code, invocation.parameters(), others)?;
    Ok(Next::Needs(
        Task::Start(Call::Body(running)),
        Frame::Intercepted { role },
    ))
}

/// The method of an interceptor at its start, with a copy of these values.
fn method_at_start(
    alloc: Global,
    number: u32,
    code: Code,
    parameters: &Seq<Value>,
    others: Chain,
) -> Result<Box<Running>, AllocError>
    ensures { IfOk result (λ boxed. boxed.value
        ≡ body_at_start number code.place code.body parameters.now [] others) }
{
    let running = Running::new(
        number,
        code.place(),
        code.body(),
        parameters.clone()?,
        Seq::empty(alloc),
        others,
        alloc,
    );
    Ok(Box::new(alloc, running)?)
}

/// An instance's own instance of an interceptor: the first of its dependents that is one (Jakarta Interceptors 2.1, *Interceptor Life
/// Cycle*).
fn instance_of<W: Contents>(world: &W, target: u32, interceptor: u32) -> Option<u32>
    ensures { interceptor_in (W.world world.now) interceptor
        (instance_at (W.world world.now) target) ≡ result }
{
    let instance = world.instance(target)?;
    for number in instance.dependents.as_slice() {
        if is_of(world, *number, interceptor) {
            return Some(*number);
        }
    }
    None
}

/// Whether a number is that of an instance of an interceptor.
fn is_of<W: Contents>(world: &W, number: u32, interceptor: u32) -> bool
    ensures { is_of interceptor (instance_at (W.world world.now) number) ≡ result }
{
    match world.instance(number) {
        None => false,
        Some(instance) => match instance.component {
            Component::Bean(_bean) => false,
            Component::Interceptor(other) => interceptor == other,
        },
    }
}

/// The method of an interceptor has ended. A lifecycle chain gives null (Jakarta Interceptors 2.1, *Interceptor Methods for
/// Lifecycle Event Callbacks*).
pub fn intercepted(role: InterceptorMethod, given_by_method: Given) -> Next
    ensures { result
        ≡ Next.Finished (Outcome.Ends (Completion.Gave (given_at_end role given_by_method))) }
{
    match role {
        InterceptorMethod::AroundInvoke => given(given_by_method),
        _ => null(),
    }
}
