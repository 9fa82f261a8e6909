//! How steps of a creation with injected parameters begin: constructors and initializers.
ghost use Rattle.std.specs.Prelude.{◌≡◌, ◌+◌, ◌<◌, [], length, map, IfOk, OnErr};
ghost use Rattle.cdi_machine.specs.Tables.{Step as MachineStep};
ghost use Rattle.cdi_machine.specs.Told.{lifecycle_told, point_told};
ghost use Rattle.cdi_host.specs.Asked.{plan_at};
ghost use Rattle.cdi_steps.specs.Known.{AreCallbacks, IsNextStep};
ghost use Rattle.cdi_steps.specs.Steps.{Moves};

use crate::invocations::callback_invocation;
use crate::task::{Next, Parameters, Task};
use cdi_base::{InterceptorMethod, Seq};
use cdi_host::{Code, Contents, Lifecycle, Point, Tables};
use cdi_store::Component;
use std::alloc::{AllocError, Global};

/// The parameters of a step behind which so many are left, so many of them without a reference, and none with a reference yet.
fn at_start(
    alloc: Global,
    number: u32,
    component: Component,
    left: u32,
    remaining: usize,
) -> Result<Box<Parameters>, AllocError>
    ensures { IfOk result (λ boxed. boxed.value ≡ record {
      number = number;
      component = component;
      left = left;
      remaining = remaining;
      references = [];
    }) }
{
    let parameters = Parameters {
        number,
        component,
        left,
        remaining,
        references: Seq::empty(alloc),
    };
    Ok(Box::new(alloc, parameters)?)
}

/// Begins a construction, an invocation of its own (Jakarta Interceptors 2.1, *Lifecycle callback interceptors*).
pub(crate) fn begin_construction<T: Tables, W: Contents>(
    _tables: &T,
    world: &mut W,
    number: u32,
    component: Component,
    left: u32,
    points: &[Point],
    lifecycle: &Lifecycle,
) -> Result<Next, AllocError>
    requires next { IsNextStep (T.tables _tables.now) component left
        (MachineStep.Construct (map point_told points.now) (lifecycle_told lifecycle.now)) }
    requires called { AreCallbacks (T.tables _tables.now) lifecycle.now.callbacks }
    requires left { left < length (plan_at (T.tables _tables.now) component) }
    ensures step { IfOk result (λ next. Moves (T.tables _tables.now)
        (Task.Creating number component (left + 1)) (W.world world.old) next (W.world world.new)) }
    ensures kept { OnErr result (W.world world.new ≡ W.world world.old) }
{
    let alloc = world.alloc();
    let role = InterceptorMethod::AroundConstruct;
    let callbacks = lifecycle.callbacks.as_slice();
    let invocation = callback_invocation(alloc, number, role, callbacks)?;
    let parameters = at_start(alloc, number, component, left, points.len())?;
    world.enter(invocation)?;
    Ok(Next::Goes(Task::Providing(parameters)))
}

/// Begins the injection of the parameters of an initializer (Jakarta CDI 4.0, *Initializer methods*).
pub(crate) fn begin_initializer<T: Tables, W: Contents>(
    _tables: &T,
    world: &W,
    number: u32,
    component: Component,
    left: u32,
    _code: Code,
    points: &[Point],
) -> Result<Next, AllocError>
    requires next { IsNextStep (T.tables _tables.now) component left
        (MachineStep.Initialize _code (map point_told points.now)) }
    requires left { left < length (plan_at (T.tables _tables.now) component) }
    ensures { IfOk result (λ next. Moves (T.tables _tables.now)
        (Task.Creating number component (left + 1)) (W.world world.now) next (W.world world.now)) }
{
    let parameters = at_start(world.alloc(), number, component, left, points.len())?;
    Ok(Next::Goes(Task::Providing(parameters)))
}
