//! The steps by which events are delivered (Jakarta CDI 4.0, *Observer notification*).
ghost use Rattle.std.specs.Prelude.{◌≡◌, ◌<◌, ◌^◌, ◌∷◌, [], length, remove, slice_get, IfOk, IfErr, MatchOption, Some};
ghost use Rattle.std.specs.List.{AllByRecursion};
ghost use Rattle.cdi_machine.specs.Told.{observer_told};
ghost use Rattle.cdi_steps.specs.Known.{AreKnownObservers, KnownDelivery};
ghost use Rattle.cdi_steps.specs.Meanings.{first};
ghost use Rattle.cdi_steps.specs.Observing.{notify_groups};
ghost use Rattle.cdi_steps.specs.Ranks.{groups_rank, rank};
ghost use Rattle.cdi_steps.specs.Steps.{IsStep, Settles, Moves, Follows, GoesOn};
ghost use Rattle.cdi_steps.specs.Driving.{IsAskedFor, HasFailed, Narrows};
ghost use Rattle.cdi_steps.specs.declared.task.Completion.{Completion};
ghost use Rattle.cdi_events.specs.Events.{is_passed_over, observer_call};

use cdi_base::{BuiltIn, Entry, Name, Scope, Seq, Value};
use cdi_contexts::{Held, Status};
use cdi_host::{Contents, Observer, Stack, Tables};
use cdi_machine::{Driver, Failure};
use cdi_steps::ends::{ended, missing, null, raised};
use cdi_steps::obtaining::is_normal;
use cdi_steps::task::{
    Call, Callee, Completion, ContainerCall, Continuation, Delivery, Event, Frame, Given, Groups,
    Next, Notification, Task,
};
use std::alloc::{AllocError, Global};

// ---- the groups of an event

/// Delivers an event to the observers that hear it, in groups by priority (Jakarta CDI 4.0, *Observer ordering*). Memory can be
/// wanting.
pub fn deliver<T: Tables, W: Contents>(
    tables: &T,
    world: &W,
    event: Box<Event>,
) -> Result<Next, AllocError>
    ensures { IfOk result (λ next. Follows (T.tables tables.now) (Continuation.Publishing event)
        (W.world world.now) next (W.world world.now)) }
{
    let Event {
        class,
        qualifiers,
        value,
    } = Box::into_inner(event);
    let groups = tables.observers(world.alloc(), class, qualifiers.as_slice())?;
    let left = Stack::from_first(groups.into_vec());
    let groups = Box::new(world.alloc(), Groups { left, value })?;
    notify_next(tables, world, groups)
}

/// The observers of a group have been notified: goes on with the next one. Memory can be wanting.
pub fn grouped<T: Tables, W: Contents>(
    tables: &T,
    world: &W,
    groups: Box<Groups>,
    _given: Given,
) -> Result<Next, AllocError>
    requires { AllByRecursion (AreKnownObservers (T.tables tables.now)) groups.value.left }
    ensures { IfOk result (λ next. GoesOn (T.tables tables.now) (Frame.Grouping groups)
        (Completion.Gave _given) (W.world world.now) next (W.world world.now)) }
{
    notify_next(tables, world, groups)
}

/// Notifies the next group, if one is left.
fn notify_next<T: Tables, W: Contents>(
    _tables: &T,
    world: &W,
    groups: Box<Groups>,
) -> Result<Next, AllocError>
    requires { AllByRecursion (AreKnownObservers (T.tables _tables.now)) groups.value.left }
    ensures { IfOk result (λ next. Settles (T.tables _tables.now) (notify_groups groups.value)
        (groups_rank groups.value) (W.world world.now) next (W.world world.now)) }
{
    let mut groups = groups;
    let Some(observers) = take_group(&mut groups.left) else {
        return Ok(null());
    };
    let value = groups.value.clone()?;
    let notification = boxed(world.alloc(), Notification { observers, value })?;
    Ok(Next::Needs(
        Task::Start(Call::Notify(notification)),
        Frame::Grouping(groups),
    ))
}

/// Takes the next group away. Memory has fewer than 2^64 of them.
fn take_group(left: &mut Stack<Seq<Observer>>) -> Option<Seq<Observer>>
    ensures taken { MatchOption result (left.old ≡ [])
        (λ group. left.old ≡ group ∷ left.new) }
    ensures few { length left.old < 2 ^ 64 }
{
    let _count = left.len();
    left.take()
}

/// What is left of a group, in a box.
fn boxed(alloc: Global, notification: Notification) -> Result<Box<Notification>, AllocError>
    ensures { IfOk result (λ boxed. boxed.value ≡ notification) }
{
    Ok(Box::new(alloc, notification)?)
}

// ---- the observers of a group

/// Chooses the observer of a group that is notified next (Jakarta CDI 4.0, *Observer ordering*): the driver picks one if several
/// are left. An error comes from the driver, or memory is wanting.
#[tactic(auto, using(cdi_steps::proofs::Driving::driving))]
pub fn notify<T: Tables, D: Driver, W: Contents>(
    tables: &T,
    driver: &mut D,
    world: &W,
    notification: Box<Notification>,
) -> Result<Next, Failure>
    requires { AreKnownObservers (T.tables tables.now) notification.value.observers }
    ensures step { IfOk result (λ next. IsStep (T.tables tables.now) (D.legal driver.old)
        (first (Task.Start (Call.Notify notification)))
        (rank (Task.Start (Call.Notify notification)))
        (W.world world.now) next (W.world world.now)) }
    ensures asked { IfOk result (λ next.
        IsAskedFor next (D.heard driver.old) (D.heard driver.new)) }
    ensures failed { IfErr result (HasFailed (D.may_end driver.old)
        (D.heard driver.old) (D.heard driver.new) (D.ended driver.new)) }
    ensures narrows { Narrows (D.legal driver.old) (D.legal driver.new)
        (D.may_end driver.old) (D.may_end driver.new) (D.knows driver.old) (D.knows driver.new) }
{
    if notification.observers.is_empty() {
        return Ok(null());
    }
    if notification.observers.len() == 1 {
        return Ok(notify_only(tables, world, notification)?);
    }
    pick(tables, driver, world, notification)
}

/// Notifies the only observer that is left.
fn notify_only<T: Tables, W: Contents>(
    tables: &T,
    world: &W,
    notification: Box<Notification>,
) -> Result<Next, AllocError>
    requires one { length notification.value.observers ≡ 1 }
    requires known { AreKnownObservers (T.tables tables.now) notification.value.observers }
    ensures { IfOk result (λ next. Moves (T.tables tables.now)
        (Task.Start (Call.Notify notification)) (W.world world.now) next (W.world world.now)) }
{
    let delivery = delivery_to(world.alloc(), notification, 0)?;
    deliver_to(tables, world, delivery)
}

/// Lets the driver pick one of several, which it counts in 32 bits. A list of 2^32 observers or more can't be in memory: it is
/// answered as memory that is wanting.
#[tactic(auto, using(cdi_steps::proofs::Driving::driving))]
fn pick<T: Tables, D: Driver, W: Contents>(
    _tables: &T,
    driver: &mut D,
    world: &W,
    notification: Box<Notification>,
) -> Result<Next, Failure>
    requires several { 1 < length notification.value.observers }
    requires known { AreKnownObservers (T.tables _tables.now) notification.value.observers }
    ensures step { IfOk result (λ next. IsStep (T.tables _tables.now) (D.legal driver.old)
        (first (Task.Start (Call.Notify notification)))
        (rank (Task.Start (Call.Notify notification)))
        (W.world world.now) next (W.world world.now)) }
    ensures asked { IfOk result (λ next.
        IsAskedFor next (D.heard driver.old) (D.heard driver.new)) }
    ensures failed { IfErr result (HasFailed (D.may_end driver.old)
        (D.heard driver.old) (D.heard driver.new) (D.ended driver.new)) }
    ensures narrows { Narrows (D.legal driver.old) (D.legal driver.new)
        (D.may_end driver.old) (D.may_end driver.new) (D.knows driver.old) (D.knows driver.new) }
{
    let Ok(count) = u32::try_from(notification.observers.len()) else {
        return Err(Failure::Memory);
    };
    let choice = driver.pick(count, world.entries())?;
    let delivery = delivery_to(world.alloc(), notification, choice as usize)?;
    Ok(Next::Writes(
        Entry::Pick { count, choice },
        Continuation::Delivering(delivery),
    ))
}

/// The delivery to the observer at a place, with the others behind it, in a box.
fn delivery_to(
    alloc: Global,
    notification: Box<Notification>,
    choice: usize,
) -> Result<Box<Delivery>, AllocError>
    requires { choice < length notification.value.observers }
    ensures observer { IfOk result (λ delivery.
        slice_get notification.value.observers choice ≡ Some delivery.value.observer) }
    ensures others { IfOk result (λ delivery. delivery.value.others
        ≡ record notification.value { observers = remove notification.value.observers choice }) }
{
    let Notification { observers, value } = Box::into_inner(notification);
    let mut observers = observers.into_vec();
    let observer = observers.remove(choice);
    let others = Notification {
        observers: Seq::new(observers),
        value,
    };
    Ok(Box::new(alloc, Delivery { observer, others })?)
}

// ---- an observer

/// Notifies an observer, unless it is skipped, and then the others of its group (Jakarta CDI 4.0, *Observer notification*). Memory
/// can be wanting.
pub fn deliver_to<T: Tables, W: Contents>(
    tables: &T,
    world: &W,
    delivery: Box<Delivery>,
) -> Result<Next, AllocError>
    requires { KnownDelivery (T.tables tables.now) delivery.value }
    ensures { IfOk result (λ next. Follows (T.tables tables.now) (Continuation.Delivering delivery)
        (W.world world.now) next (W.world world.now)) }
{
    let Delivery { observer, others } = Box::into_inner(delivery);
    let Some(head) = tables.bean(observer.bean) else {
        return Ok(missing());
    };
    let others = boxed(world.alloc(), others)?;
    if is_skipped(world, head.scope, &observer) {
        return Ok(Next::Goes(Task::Start(Call::Notify(others))));
    }
    let call = observer_call(world.alloc(), observer, &others.value)?;
    Ok(Next::Needs(Task::Calling(call), Frame::Observing(others)))
}

/// Whether an observer of a bean with this scope isn't called: in an inactive scope, and if its instance would have to be made and
/// it is conditional or the context is ending (Jakarta CDI 4.0, *Conditional observer methods*).
fn is_skipped<W: Contents>(world: &W, scope: Scope, observer: &Observer) -> bool
    ensures { result ≡ is_passed_over (W.world world.now) (observer_told observer.now) scope }
{
    if !is_normal(scope) {
        return false;
    }
    let Some(status) = world.status(scope) else {
        return true;
    };
    if let Some(Held::Is(_number)) = world.held(scope, observer.bean) {
        return false;
    }
    observer.conditional || matches!(status, Status::Ending)
}

/// The call of an observer with the value of an event, in a box.
fn observer_call(
    alloc: Global,
    observer: Observer,
    value: &Value,
) -> Result<Box<ContainerCall>, AllocError>
    ensures { IfOk result (λ call. call.value ≡ observer_call observer value.now) }
{
    let mut args = Seq::empty(alloc);
    args.push(value.clone()?)?;
    let call = ContainerCall {
        declaring: observer.bean,
        callee: Callee::Observer(observer),
        args,
    };
    Ok(Box::new(alloc, call)?)
}

/// An observer has been notified: goes on with the others of its group.
pub fn observed<T: Tables, W: Contents>(
    _tables: &T,
    _world: &W,
    others: Box<Notification>,
    _given: Given,
) -> Next
    requires { AreKnownObservers (T.tables _tables.now) others.value.observers }
    ensures { GoesOn (T.tables _tables.now) (Frame.Observing others) (Completion.Gave _given)
        (W.world _world.now) result (W.world _world.now) }
{
    Next::Goes(Task::Start(Call::Notify(others)))
}

/// An observer threw: the delivery ends, with another exception in place of a checked one (Jakarta CDI 4.0, *Observer
/// notification*).
pub fn observed_with<T: Tables, W: Contents>(
    tables: &T,
    _world: &W,
    _others: Box<Notification>,
    exception: Name,
) -> Next
    ensures { GoesOn (T.tables tables.now) (Frame.Observing _others) (Completion.Threw exception)
        (W.world _world.now) result (W.world _world.now) }
{
    if tables.is_checked(exception) {
        return raised(BuiltIn::ObserverException);
    }
    ended(Completion::Threw(exception))
}
