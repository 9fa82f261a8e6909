//! The steps of constructors and initializers, whose parameters are injected.
ghost use Rattle.std.specs.Prelude.{◌≡◌, ◌-◌, ◌^◌, ◌++◌, ◌∷◌, ◌≤◌, ◌<◌, [], length, slice_get, IfOk, IsSome, IfSome, OnErr};
ghost use Rattle.std.specs.Option.{option_copied};
ghost use Rattle.cdi_machine.specs.World.{after_change};
ghost use Rattle.cdi_machine.specs.World.Change.{Provide};
ghost use Rattle.cdi_machine.specs.Resolved.{IsResolved, IsResolvedStep};
ghost use Rattle.cdi_machine.specs.Told.{point_told, step_told};
ghost use Rattle.cdi_host.specs.Asked.{last_of, plan_at};
ghost use Rattle.cdi_steps.specs.Known.{AreParameters, HasParameters};
ghost use Rattle.cdi_steps.specs.Parameters as spec;
ghost use Rattle.cdi_steps.specs.Steps.{Moves, GoesOn};

use cdi_base::{BuiltIn, Name, Seq};
use cdi_host::{Chain, Code, Contents, Point, Resolution, Running, Step, Tables};
use cdi_steps::creation::{fails, reference_to};
use cdi_steps::ends::missing;
use cdi_steps::obtaining::is_normal;
use cdi_steps::task::{Call, Completion, Frame, Given, Next, Parameters, Task};
use cdi_store::{Component, Owner, Reference};
use std::alloc::{AllocError, Global};

// ---- the parameters

/// The injection points of the parameters of a step.
fn points_of(step: &Step) -> &[Point]
    ensures { result.now ≡ spec.parameters_of step.now }
{
    match step {
        Step::Construct { points, .. } => points.as_slice(),
        Step::Initialize { points, .. } => points.as_slice(),
        Step::Intercept(_) | Step::Inject { .. } | Step::Complete(_) => &[],
    }
}

/// Whether a step is the construction, which is an invocation of its own.
fn constructs(step: &Step) -> bool
    ensures { result ≡ spec.constructs (step_told step.now) }
{
    matches!(step, Step::Construct { .. })
}

/// The next one has a reference.
fn with_reference(
    parameters: Box<Parameters>,
    reference: Reference,
) -> Result<Box<Parameters>, AllocError>
    ensures { IfOk result (λ boxed. boxed.value ≡ record parameters.value {
      references = parameters.value.references ++ reference ∷ [];
    }) }
{
    let mut parameters = parameters;
    parameters.references.push(reference)?;
    Ok(parameters)
}

// ---- one parameter after the other

/// The step that has these parameters.
fn step_of<'a, T: Tables>(tables: &'a T, parameters: &Parameters) -> Option<&'a Step>
    requires { AreParameters (T.tables tables.now) parameters.now }
    ensures there { IsSome result }
    ensures is { IfSome result (λ s.
        spec.IsStepOf (T.tables tables.now) parameters.now (step_told s.now)) }
    ensures has { IfSome result (λ s. HasParameters (step_told s.now)) }
    ensures resolved { IfSome result
        (λ s. IsResolvedStep (T.tables tables.now).resolve s.now) }
{
    let at = tables.steps(parameters.component) - parameters.left - 1;
    tables.step(parameters.component, at)
}

/// The injection point of the next parameter of a step, of which so many have no reference.
fn next_point<'a, T: Tables>(_tables: &T, step: &'a Step, remaining: usize) -> Option<&'a Point>
    requires some { 0 < remaining }
    requires remaining { remaining ≤ length (spec.points_in (step_told step.now)) }
    requires resolved { IsResolvedStep (T.tables _tables.now).resolve step.now }
    ensures there { IsSome result }
    ensures next { IfSome result (λ p. last_of remaining (spec.points_in (step_told step.now))
        ≡ point_told p.now ∷ last_of (remaining - 1) (spec.points_in (step_told step.now))) }
    ensures resolved { IfSome result (λ p. IsResolved (T.tables _tables.now).resolve p.now) }
{
    let points = points_of(step);
    point_at(points, points.len() - remaining)
}

/// The point at a place, if there is one.
fn point_at(points: &[Point], at: usize) -> Option<&Point>
    ensures { option_copied result ≡ slice_get points.now at }
{
    points.get(at)
}

/// Provides the next parameter with its reference, or runs what takes the references of all (Jakarta CDI 4.0, *Bean constructors* and
/// *Initializer methods*).
pub fn provide<T: Tables, W: Contents>(
    tables: &T,
    world: &mut W,
    parameters: Box<Parameters>,
) -> Result<Next, AllocError>
    requires { AreParameters (T.tables tables.now) parameters.value }
    ensures step { IfOk result (λ next. Moves (T.tables tables.now) (Task.Providing parameters)
        (W.world world.old) next (W.world world.new)) }
    ensures kept { OnErr result (W.world world.new ≡ W.world world.old) }
{
    let Some(step) = step_of(tables, &parameters) else {
        return Ok(missing());
    };
    let remaining = parameters.remaining;
    if remaining == 0 {
        return take(tables, world, parameters, step);
    }
    let Some(point) = next_point(tables, step, remaining) else {
        return Ok(missing());
    };
    refer(tables, world, parameters, step, point)
}

/// Provides a parameter: at once with a proxy for a bean of a normal scope, and with a new instance of a dependent one (Jakarta CDI
/// 4.0, *Contextual reference for a bean*).
fn refer<T: Tables, W: Contents>(
    tables: &T,
    world: &mut W,
    parameters: Box<Parameters>,
    step: &Step,
    point: &Point,
) -> Result<Next, AllocError>
    requires next { spec.IsNextPoint (T.tables tables.now) parameters.value
        (step_told step.now) (point_told point.now) }
    requires has { HasParameters (step_told step.now) }
    requires resolved { IsResolved (T.tables tables.now).resolve point.now }
    ensures step { IfOk result (λ next. Moves (T.tables tables.now) (Task.Providing parameters)
        (W.world world.old) next (W.world world.new)) }
    ensures kept { OnErr result (W.world world.new ≡ W.world world.old) }
{
    let number = parameters.number;
    let bean = match point.resolution {
        Resolution::One(bean) => bean,
        Resolution::Nothing => {
            return Ok(fail(
                world,
                number,
                step,
                BuiltIn::UnsatisfiedResolutionException.name(),
            ));
        }
        Resolution::Many => {
            return Ok(fail(
                world,
                number,
                step,
                BuiltIn::AmbiguousResolutionException.name(),
            ));
        }
    };
    let Some(head) = tables.bean(bean) else {
        return Ok(fail(world, number, step, BuiltIn::IllegalStateException.name()));
    };
    let parameters = behind_next(parameters);
    if is_normal(head.scope) {
        let parameters = with_reference(parameters, Reference::Proxy(bean))?;
        return Ok(Next::Goes(Task::Providing(parameters)));
    }
    let owner = Owner::Instance(number);
    let call = Task::Start(Call::Create { bean, owner });
    Ok(Next::Needs(call, Frame::Providing(parameters)))
}

/// The parameters behind the next one.
fn behind_next(parameters: Box<Parameters>) -> Box<Parameters>
    requires { 0 < parameters.value.remaining }
    ensures next { result.value
        ≡ record parameters.value { remaining = parameters.value.remaining - 1 } }
    ensures few { parameters.value.remaining < 2 ^ 64 }
{
    let mut parameters = parameters;
    parameters.remaining -= 1;
    parameters
}

/// What a parameter is to have has been made (Jakarta CDI 4.0, *Dependent objects*).
pub fn provided<T: Tables, W: Contents>(
    _tables: &T,
    _world: &W,
    parameters: Box<Parameters>,
    given: Given,
) -> Result<Next, AllocError>
    requires { AreParameters (T.tables _tables.now) parameters.value }
    ensures { IfOk result (λ next. GoesOn (T.tables _tables.now) (Frame.Providing parameters)
        (Completion.Gave given) (W.world _world.now) next (W.world _world.now)) }
{
    let parameters = with_reference(parameters, reference_to(given))?;
    Ok(Next::Goes(Task::Providing(parameters)))
}

// ---- what takes the references

/// Runs the construct chain or the initializer with the references of all parameters (Jakarta CDI 4.0, *Bean constructors* and
/// *Initializer methods*).
fn take<T: Tables, W: Contents>(
    tables: &T,
    world: &mut W,
    parameters: Box<Parameters>,
    step: &Step,
) -> Result<Next, AllocError>
    requires next { spec.IsStepOf (T.tables tables.now) parameters.value (step_told step.now) }
    requires has { HasParameters (step_told step.now) }
    requires all { parameters.value.remaining ≡ 0 }
    ensures step { IfOk result (λ next. Moves (T.tables tables.now) (Task.Providing parameters)
        (W.world world.old) next (W.world world.new)) }
    ensures kept { OnErr result (W.world world.new ≡ W.world world.old) }
{
    match step {
        Step::Construct { lifecycle, .. } => {
            let chain = Chain::from_slice(world.alloc(), lifecycle.chain.as_slice())?;
            Ok(construct(world, parameters, chain))
        }
        Step::Initialize { code, .. } => initialize(world.alloc(), parameters, *code),
        Step::Intercept(_) => Ok(missing()),
        Step::Inject { .. } => Ok(missing()),
        Step::Complete(_) => Ok(missing()),
    }
}

/// Runs the construct chain, whose end is the constructor (Jakarta Interceptors 2.1, *Lifecycle callback interceptors*).
fn construct<W: Contents>(world: &mut W, parameters: Box<Parameters>, chain: Chain) -> Next
    ensures next { result ≡ Next.Needs (Task.Start (Call.Rest chain)) (Frame.Constructing
        parameters.value.number parameters.value.component parameters.value.left) }
    ensures world { W.world world.new
        ≡ after_change (Provide parameters.value.references) (W.world world.old) }
{
    let Parameters {
        number,
        component,
        left,
        remaining: _remaining,
        references,
    } = Box::into_inner(parameters);
    world.provide(references);
    Next::Needs(
        Task::Start(Call::Rest(chain)),
        Frame::Constructing {
            number,
            component,
            left,
        },
    )
}

/// Runs an initializer (Jakarta CDI 4.0, *Initializer methods*).
fn initialize(alloc: Global, parameters: Box<Parameters>, code: Code) -> Result<Next, AllocError>
    ensures { IfOk result (spec.RunsInitializer parameters.value code) }
{
    let Parameters {
        number,
        component,
        left,
        remaining: _remaining,
        references,
    } = Box::into_inner(parameters);
    let args = Seq::empty(alloc);
    let chain = Chain::empty(alloc);
    let running = Running::new(
        number,
        code.place(),
        code.body(),
        args,
        references,
        chain,
        alloc,
    );
    Ok(Next::Needs(
        Task::Start(Call::Body(Box::new(alloc, running)?)),
        Frame::Stepping {
            number,
            component,
            left,
        },
    ))
}

// ---- the construct chain

/// The construct chain has ended: it has to have got through the constructor.
pub fn constructed<T: Tables, W: Contents>(
    _tables: &T,
    world: &mut W,
    number: u32,
    component: Component,
    left: u32,
    _given: Given,
) -> Next
    requires { left ≤ length (plan_at (T.tables _tables.now) component) }
    ensures { GoesOn (T.tables _tables.now) (Frame.Constructing number component left)
        (Completion.Gave _given) (W.world world.old) result (W.world world.new) }
{
    let completed = match world.invocation() {
        Some(invocation) => invocation.is_completed(),
        None => {
            world.exit();
            return fails(number, BuiltIn::IllegalStateException.name());
        }
    };
    world.exit();
    if !completed {
        return fails(number, BuiltIn::CreationException.name());
    }
    Next::Goes(Task::Creating {
        number,
        component,
        left,
    })
}

/// The construct chain threw: the creation has failed.
pub fn constructed_with<T: Tables, W: Contents>(
    _tables: &T,
    world: &mut W,
    number: u32,
    _component: Component,
    _left: u32,
    exception: Name,
) -> Next
    ensures { GoesOn (T.tables _tables.now) (Frame.Constructing number _component _left)
        (Completion.Threw exception) (W.world world.old) result (W.world world.new) }
{
    world.exit();
    fails(number, exception)
}

// ---- a step that throws

/// A step with parameters threw: the creation has failed, and a construction ends with its invocation.
fn fail<W: Contents>(world: &mut W, number: u32, step: &Step, exception: Name) -> Next
    ensures next { result
        ≡ Next.Needs (Task.Start (Call.Release number)) (Frame.Discarding number exception) }
    ensures world { W.world world.new
        ≡ spec.after_step (spec.constructs (step_told step.now)) (W.world world.old) }
{
    if constructs(step) {
        world.exit();
    }
    fails(number, exception)
}

/// What a parameter is to have couldn't be made.
pub fn provided_with<T: Tables, W: Contents>(
    tables: &T,
    world: &mut W,
    parameters: Box<Parameters>,
    exception: Name,
) -> Next
    requires { AreParameters (T.tables tables.now) parameters.value }
    ensures { GoesOn (T.tables tables.now) (Frame.Providing parameters)
        (Completion.Threw exception) (W.world world.old) result (W.world world.new) }
{
    let Some(step) = step_of(tables, &parameters) else {
        return missing();
    };
    fail(world, parameters.number, step, exception)
}
