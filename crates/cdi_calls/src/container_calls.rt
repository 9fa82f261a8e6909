//! The steps of calls by the container itself: producers, disposers and observers, on an instance of the bean that declares them.
ghost use Rattle.std.specs.Prelude.{◌≡◌, ◌<◌, ◌^◌, ◌++◌, ◌∷◌, [], length, option_map, IfOk, IfSome, IsSome, OnErr};
ghost use Rattle.cdi_host.specs.Asked.{machine_resolution};
ghost use Rattle.cdi_machine.specs.Resolved.{IsResolvedMember};
ghost use Rattle.cdi_machine.specs.Told.{member_told};
ghost use Rattle.cdi_machine.specs.World.{after_change};
ghost use Rattle.cdi_machine.specs.World.Change.{Provide};
ghost use Rattle.cdi_steps.specs.ContainerCalls as spec;
ghost use Rattle.cdi_steps.specs.Known.{IsKnownBody, KnownCallee};
ghost use Rattle.cdi_steps.specs.Ranks.{called_rank};
ghost use Rattle.cdi_steps.specs.Steps.{GoesOn, Moves, Steps};

use cdi_base::{BuiltIn, InterceptorMethod, Name, Seq, Value};
use cdi_host::{Chain, Code, Contents, Invocation, Member, Members, Resolution, Source, Tables};
use cdi_steps::creation::reference_to;
use cdi_steps::ends::{given, missing, raised};
use cdi_steps::obtaining::{is_normal, stays};
use cdi_steps::task::{
    Call, CallParameters, Callee, Completion, ContainerCall, Frame, Given, Next, Task,
};
use cdi_store::{Owner, Reference};
use std::alloc::{AllocError, Global};

// ---- what is called

/// The producer method of a product; a producer field is none.
fn producer_of<T: Tables>(tables: &T, bean: u32) -> Option<&Member>
    ensures found { spec.producer_of (spec.product_at (T.tables tables.now) bean)
        ≡ option_map (λ m. member_told m.now) result }
    ensures resolved { IfSome result (λ m.
        IsResolvedMember (T.tables tables.now).resolve m.now) }
{
    match &tables.product(bean)?.source {
        Source::Method(member) => Some(member),
        Source::Field(_field) => None,
    }
}

/// The method that is called: a producer, a disposer or an observer.
fn member_of<'a, T: Tables>(tables: &'a T, callee: &'a Callee) -> Option<&'a Member>
    requires { KnownCallee (T.tables tables.now) callee.now }
    ensures found { spec.member_of (T.tables tables.now) callee.now
        ≡ option_map (λ m. member_told m.now) result }
    ensures resolved { IfSome result (λ m.
        IsResolvedMember (T.tables tables.now).resolve m.now) }
    ensures known { IfSome result (λ m. IsKnownBody (T.tables tables.now) m.now.code.body) }
{
    match callee {
        Callee::Producer { bean, .. } => producer_of(tables, *bean),
        Callee::Disposer { bean, at } => tables.product(*bean)?.disposers.get(*at),
        Callee::Observer(observer) => Some(&observer.member),
    }
}

/// The producer field that is called.
fn field_of<T: Tables>(tables: &T, callee: &Callee) -> Option<Name>
    ensures { spec.field_of (T.tables tables.now) callee.now ≡ result }
{
    match callee {
        Callee::Producer { bean, .. } => match tables.product(*bean)?.source {
            Source::Method(_) => None,
            Source::Field(field) => Some(field),
        },
        Callee::Disposer { .. } => None,
        Callee::Observer(_) => None,
    }
}

/// A call, on the instance with a number: a producer field is read there, and a method is invoked, through its chain (Jakarta CDI 4.0,
/// *Container invocations and interception*).
fn call_on<T: Tables, W: Contents>(
    tables: &T,
    world: &mut W,
    call: Box<ContainerCall>,
    number: u32,
) -> Result<Next, AllocError>
    requires { KnownCallee (T.tables tables.now) call.value.callee }
    ensures step { IfOk result (λ next. Steps (T.tables tables.now)
        (spec.call_on (T.tables tables.now) call.value number) called_rank
        (W.world world.old) next (W.world world.new)) }
    ensures kept { OnErr result (W.world world.new ≡ W.world world.old) }
{
    if let Some(field) = field_of(tables, &call.callee) {
        return read_field(tables, world, number, field);
    }
    let Some(member) = member_of(tables, &call.callee) else {
        return Ok(missing());
    };
    let code = member.code;
    invoke(tables, world, call, number, code)
}

/// Gives what a field of an instance holds, as a producer field (Jakarta CDI 4.0, *Producer fields*).
fn read_field<T: Tables, W: Contents>(
    _tables: &T,
    world: &W,
    number: u32,
    field: Name,
) -> Result<Next, AllocError>
    ensures { IfOk result (λ next. Steps (T.tables _tables.now)
        (spec.read_field number field) called_rank
        (W.world world.now) next (W.world world.now)) }
{
    let Some(instance) = world.instance(number) else {
        return Ok(missing());
    };
    if !instance.fields.has(field) {
        return Ok(missing());
    }
    let value = instance.fields.get(field).clone()?;
    Ok(given(Given::Result(value)))
}

/// Invokes a producer, a disposer or an observer, whose parameters are injected next.
fn invoke<T: Tables, W: Contents>(
    _tables: &T,
    world: &mut W,
    call: Box<ContainerCall>,
    number: u32,
    code: Code,
) -> Result<Next, AllocError>
    requires known { KnownCallee (T.tables _tables.now) call.value.callee }
    requires body { IsKnownBody (T.tables _tables.now) code.body }
    requires called { IfSome (spec.member_of (T.tables _tables.now) call.value.callee)
        (λ m. m.code ≡ code) }
    requires there { IsSome (spec.member_of (T.tables _tables.now) call.value.callee) }
    ensures step { IfOk result (λ next. Steps (T.tables _tables.now)
        (spec.call_on (T.tables _tables.now) call.value number) called_rank
        (W.world world.old) next (W.world world.new)) }
    ensures kept { OnErr result (W.world world.new ≡ W.world world.old) }
{
    let alloc = world.alloc();
    let ContainerCall { callee, args, .. } = Box::into_inner(call);
    let members = Members::one(code);
    let parameters = CallParameters {
        callee,
        references: Seq::empty(alloc),
    };
    let task = Task::Supplying(Box::new(alloc, parameters)?);
    let role = InterceptorMethod::AroundInvoke;
    world.enter(Invocation::new(number, role, members, args, alloc))?;
    Ok(Next::Needs(task, Frame::Exiting))
}

// ---- the receiver

/// Begins a call: what is borrowed from here on lasts as long as it (Jakarta CDI 4.0, *Destruction of objects with scope
/// @Dependent*).
pub fn begin<T: Tables, W: Contents>(
    _tables: &T,
    world: &mut W,
    call: Box<ContainerCall>,
) -> Result<Next, AllocError>
    requires { KnownCallee (T.tables _tables.now) call.value.callee }
    ensures step { IfOk result (λ next. Moves (T.tables _tables.now) (Task.Calling call)
        (W.world world.old) next (W.world world.new)) }
    ensures kept { OnErr result (W.world world.new ≡ W.world world.old) }
{
    world.borrow()?;
    Ok(Next::Needs(Task::Receiving(call), Frame::Using))
}

/// Needs the instance on which a call is made: the contextual instance of the bean that declares what is called, or a new one
/// if that is a dependent bean (Jakarta CDI 4.0, *Producer methods*, *Observer methods*).
pub fn receive<T: Tables, W: Contents>(tables: &T, _world: &W, call: Box<ContainerCall>) -> Next
    requires { KnownCallee (T.tables tables.now) call.value.callee }
    ensures { Moves (T.tables tables.now) (Task.Receiving call)
        (W.world _world.now) result (W.world _world.now) }
{
    let bean = call.declaring;
    let Some(head) = tables.bean(bean) else {
        return missing();
    };
    if is_normal(head.scope) {
        let obtained = Task::Start(Call::Obtain { bean });
        return Next::Needs(obtained, Frame::Received(call));
    }
    let owner = Owner::Borrower;
    let made = Task::Start(Call::Create { bean, owner });
    Next::Needs(made, Frame::Lent(call))
}

/// The contextual instance has been obtained.
pub fn received<T: Tables, W: Contents>(
    tables: &T,
    world: &mut W,
    call: Box<ContainerCall>,
    given: Given,
) -> Result<Next, AllocError>
    requires { KnownCallee (T.tables tables.now) call.value.callee }
    ensures step { IfOk result (λ next. GoesOn (T.tables tables.now) (Frame.Received call)
        (Completion.Gave given) (W.world world.old) next (W.world world.new)) }
    ensures kept { OnErr result (W.world world.new ≡ W.world world.old) }
{
    match given {
        Given::Number(number) => call_on(tables, world, call, number),
        Given::Result(_value) => Ok(missing()),
        Given::Empty => Ok(missing()),
    }
}

/// An instance has been made for the call, whose destruction must not have begun.
pub fn lent<T: Tables, W: Contents>(
    tables: &T,
    world: &mut W,
    call: Box<ContainerCall>,
    given: Given,
) -> Result<Next, AllocError>
    requires { KnownCallee (T.tables tables.now) call.value.callee }
    ensures step { IfOk result (λ next. GoesOn (T.tables tables.now) (Frame.Lent call)
        (Completion.Gave given) (W.world world.old) next (W.world world.new)) }
    ensures kept { OnErr result (W.world world.new ≡ W.world world.old) }
{
    match given {
        Given::Number(number) => {
            if !stays(world, number) {
                return Ok(raised(BuiltIn::IllegalStateException));
            }
            call_on(tables, world, call, number)
        }
        Given::Result(_value) => Ok(raised(BuiltIn::NullPointerException)),
        Given::Empty => Ok(raised(BuiltIn::NullPointerException)),
    }
}

// ---- the parameters

/// Provides the next parameter of a call with its reference, or runs its chain with the references of all (Jakarta CDI 4.0, *Producer
/// methods*, *Disposer methods*, *Observer methods*).
pub fn supply<T: Tables, W: Contents>(
    tables: &T,
    world: &mut W,
    parameters: Box<CallParameters>,
) -> Result<Next, AllocError>
    requires { KnownCallee (T.tables tables.now) parameters.value.callee }
    ensures step { IfOk result (λ next. Moves (T.tables tables.now) (Task.Supplying parameters)
        (W.world world.old) next (W.world world.new)) }
    ensures kept { OnErr result (W.world world.new ≡ W.world world.old) }
{
    let Some(member) = member_of(tables, &parameters.callee) else {
        return Ok(missing());
    };
    match member.points.get(parameters.references.len()) {
        Some(point) => {
            let resolution = point.resolution;
            refer(tables, world, parameters, resolution)
        }
        None => {
            let chain = Chain::from_slice(world.alloc(), member.chain.as_slice())?;
            Ok(run(world, parameters, chain))
        }
    }
}

/// Runs the chain of a call with the references of all parameters (Jakarta Interceptors 2.1, *InvocationContext*).
fn run<W: Contents>(world: &mut W, parameters: Box<CallParameters>, chain: Chain) -> Next
    ensures next { result ≡ Next.Goes (Task.Start (Call.Rest chain)) }
    ensures world { W.world world.new
        ≡ after_change (Provide parameters.value.references) (W.world world.old) }
{
    let CallParameters {
        callee: _callee,
        references,
    } = Box::into_inner(parameters);
    world.provide(references);
    Next::Goes(Task::Start(Call::Rest(chain)))
}

/// Provides a parameter: at once with a proxy for a bean of a normal scope, and with a new instance of a dependent one (Jakarta CDI
/// 4.0, *Contextual reference for a bean*).
fn refer<T: Tables, W: Contents>(
    tables: &T,
    _world: &W,
    parameters: Box<CallParameters>,
    resolution: Resolution,
) -> Result<Next, AllocError>
    requires known { KnownCallee (T.tables tables.now) parameters.value.callee }
    requires next { spec.HasNextResolution (T.tables tables.now) parameters.value
        (machine_resolution resolution) }
    ensures { IfOk result (λ next. Moves (T.tables tables.now) (Task.Supplying parameters)
        (W.world _world.now) next (W.world _world.now)) }
{
    let bean = match resolution {
        Resolution::One(bean) => bean,
        Resolution::Nothing => return Ok(raised(BuiltIn::UnsatisfiedResolutionException)),
        Resolution::Many => return Ok(raised(BuiltIn::AmbiguousResolutionException)),
    };
    let Some(head) = tables.bean(bean) else {
        return Ok(missing());
    };
    if is_normal(head.scope) {
        let parameters = with_reference(parameters, Reference::Proxy(bean))?;
        return Ok(Next::Goes(Task::Supplying(parameters)));
    }
    let owner = owner_of(&parameters.callee);
    let call = Task::Start(Call::Create { bean, owner });
    Ok(Next::Needs(call, Frame::Supplied(parameters)))
}

/// What the dependents of a call's parameters belong to: a product's instance, or the temporaries of the call (Jakarta CDI 4.0,
/// *Dependent objects*).
fn owner_of(callee: &Callee) -> Owner
    ensures { result ≡ spec.owner_of callee.now }
{
    match callee {
        Callee::Producer { number, .. } => Owner::Instance(*number),
        Callee::Disposer { .. } | Callee::Observer(_) => Owner::Borrower,
    }
}

/// The next parameter has a reference.
fn with_reference(
    parameters: Box<CallParameters>,
    reference: Reference,
) -> Result<Box<CallParameters>, AllocError>
    ensures next { IfOk result (λ boxed. boxed.value ≡ record parameters.value {
      references = parameters.value.references ++ reference ∷ [];
    }) }
    ensures few { IfOk result (λ boxed. length parameters.value.references < 2 ^ 64) }
{
    let mut parameters = parameters;
    let _few = parameters.references.len();
    parameters.references.push(reference)?;
    Ok(parameters)
}

/// What a parameter is to have has been made (Jakarta CDI 4.0, *Dependent objects*).
pub fn supplied<T: Tables, W: Contents>(
    _tables: &T,
    _world: &W,
    parameters: Box<CallParameters>,
    given: Given,
) -> Result<Next, AllocError>
    requires { KnownCallee (T.tables _tables.now) parameters.value.callee }
    ensures { IfOk result (λ next. GoesOn (T.tables _tables.now) (Frame.Supplied parameters)
        (Completion.Gave given) (W.world _world.now) next (W.world _world.now)) }
{
    let parameters = with_reference(parameters, reference_to(given))?;
    Ok(Next::Goes(Task::Supplying(parameters)))
}
