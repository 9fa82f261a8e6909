//! The steps of creating an instance of a product (Jakarta CDI 4.0, *Lifecycle of producer methods*, *Lifecycle of producer
//! fields*).
ghost use Rattle.std.specs.Prelude.{◌≡◌, Some, [], IfOk, OnErr};
ghost use Rattle.cdi_steps.specs.Known.{KnownContinuation};
ghost use Rattle.cdi_steps.specs.Products.{is_null, product_bean};
ghost use Rattle.cdi_steps.specs.Steps.{Follows, GoesOn};

use crate::creation::{fails, ready};
use crate::ends::{given, missing};
use crate::obtaining::is_normal;
use crate::task::{
    Call, Callee, Completion, ContainerCall, Continuation, Frame, Given, Next, Task,
};
use cdi_base::{BuiltIn, Entry, Fields, Seq, Value};
use cdi_host::{Contents, Tables};
use cdi_store::{Component, Owner};
use std::alloc::{AllocError, Global};

/// The bean of a component, if that is a product.
pub(crate) fn product_of<T: Tables>(tables: &T, component: Component) -> Option<u32>
    ensures { product_bean (T.tables tables.now) component ≡ result }
{
    match component {
        Component::Bean(bean) => {
            let _product = tables.product(bean)?;
            Some(bean)
        }
        Component::Interceptor(_interceptor) => None,
    }
}

/// Makes the instance of a product, which its producer gives next.
pub(crate) fn make_product<T: Tables, W: Contents>(
    tables: &T,
    world: &mut W,
    number: u32,
    bean: u32,
    owner: Box<Owner>,
) -> Result<Next, AllocError>
    requires known { KnownContinuation (T.tables tables.now) (W.world world.old)
        (Continuation.Making number (Component.Bean bean) owner) }
    requires product { product_bean (T.tables tables.now) (Component.Bean bean) ≡ Some bean }
    ensures step { IfOk result (λ next. Follows (T.tables tables.now)
        (Continuation.Making number (Component.Bean bean) owner)
        (W.world world.old) next (W.world world.new)) }
    ensures kept { OnErr result (W.world world.new ≡ W.world world.old) }
{
    let Some(head) = tables.bean(bean) else {
        return Ok(missing());
    };
    let Some(product) = tables.product(bean) else {
        return Ok(missing());
    };
    let alloc = world.alloc();
    let call = producer_call(alloc, product.declaring, number, bean)?;
    world.make(
        Component::Bean(bean),
        Box::into_inner(owner),
        Fields::new(alloc),
    )?;
    let normal = is_normal(head.scope);
    Ok(Next::Needs(Task::Calling(call), Frame::Producing { number, normal }))
}

/// The call of what gives the product for the instance with a number (Jakarta CDI 4.0, *Producer methods*, *Producer fields*).
fn producer_call(
    alloc: Global,
    declaring: u32,
    number: u32,
    bean: u32,
) -> Result<Box<ContainerCall>, AllocError>
    ensures { IfOk result (λ boxed. boxed.value ≡ record {
      declaring = declaring;
      callee = Callee.Producer number bean;
      args = [];
    }) }
{
    let call = ContainerCall {
        declaring,
        callee: Callee::Producer { number, bean },
        args: Seq::empty(alloc),
    };
    Ok(Box::new(alloc, call)?)
}

/// The producer has given the product: the instance holds it. Null is a product of no scope but @Dependent.
pub fn produced<T: Tables, W: Contents>(
    tables: &T,
    world: &mut W,
    number: u32,
    normal: bool,
    given: Given,
) -> Next
    ensures { GoesOn (T.tables tables.now) (Frame.Producing number normal)
        (Completion.Gave given) (W.world world.old) result (W.world world.new) }
{
    match given {
        Given::Result(value) => hold(tables, world, number, normal, value),
        Given::Number(_number) => ready(number),
        Given::Empty => ready(number),
    }
}

/// The instance holds what was produced, unless that is a null product of a normal scope.
fn hold<T: Tables, W: Contents>(
    _tables: &T,
    world: &mut W,
    number: u32,
    normal: bool,
    value: Value,
) -> Next
    ensures { GoesOn (T.tables _tables.now) (Frame.Producing number normal)
        (Completion.Gave (Given.Result value)) (W.world world.old) result (W.world world.new) }
{
    if !is_null(&value) {
        world.hold(number, value);
        return ready(number);
    }
    if normal {
        return fails(number, BuiltIn::IllegalProductException.name());
    }
    world.hold(number, value);
    none(number)
}

/// Whether a value is null.
fn is_null(value: &Value) -> bool
    ensures { is_null value.now ≡ result }
{
    matches!(value, Value::Null)
}

/// A creation whose product is null gives no instance: the dependents are destroyed.
fn none(number: u32) -> Next
    ensures { result ≡ Next.Needs (Task.Start (Call.Release number)) (Frame.Dropping number) }
{
    let call = Task::Start(Call::Release { number });
    Next::Needs(call, Frame::Dropping { number })
}

/// The dependents are gone, and then the instance whose product was null.
pub fn dropped(number: u32) -> Next
    ensures { result ≡ Next.Writes (Entry.Drop number) (Continuation.Dropping number) }
{
    Next::Writes(Entry::Drop { number }, Continuation::Dropping { number })
}

/// The instance whose product was null is gone.
pub fn drop_null<T: Tables, W: Contents>(_tables: &T, world: &mut W, number: u32) -> Next
    ensures { Follows (T.tables _tables.now) (Continuation.Dropping number)
        (W.world world.old) result (W.world world.new) }
{
    world.discard(number);
    given(Given::Empty)
}
