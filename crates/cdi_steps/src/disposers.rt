//! The steps of disposing of a product (Jakarta CDI 4.0, *Disposer methods*).
ghost use Rattle.std.specs.Prelude.{◌≡◌, ◌+◌, ◌<◌, ◌^◌, IfOk, IfSome};
ghost use Rattle.cdi_steps.specs.ContainerCalls.{product_at};
ghost use Rattle.cdi_steps.specs.Products.{CallsDisposer, Disposes, declaring_at};
ghost use Rattle.cdi_steps.specs.Steps.{GoesOn};

use crate::destruction::free;
use crate::task::{Call, Callee, Completion, ContainerCall, Disposal, Frame, Given, Next, Task};
use cdi_base::{Seq, Value};
use cdi_host::{Contents, Tables};
use std::alloc::{AllocError, Global};

/// Begins to dispose of a product, by its first disposer. Memory can be wanting.
pub(crate) fn dispose<T: Tables>(
    tables: &T,
    alloc: Global,
    number: u32,
    bean: u32,
    value: Value,
) -> Result<Next, AllocError>
    ensures { IfOk result (Disposes (T.tables tables.now)
        (record { number = number; bean = bean; next = 0; value = value })) }
{
    let disposal = Disposal {
        number,
        bean,
        next: 0,
        value,
    };
    dispose_next(tables, alloc, disposal)
}

/// Calls the next disposer of a product, or destroys its dependents if none is left. Memory can be wanting.
fn dispose_next<T: Tables>(
    tables: &T,
    alloc: Global,
    disposal: Disposal,
) -> Result<Next, AllocError>
    ensures { IfOk result (Disposes (T.tables tables.now) disposal) }
{
    let Some(declaring) = declaring(tables, disposal.bean, disposal.next) else {
        return Ok(free(disposal.number));
    };
    call_next(alloc, declaring, disposal)
}

/// The bean that declares the disposer of a product at a place, if there is one.
fn declaring<T: Tables>(tables: &T, bean: u32, at: usize) -> Option<u32>
    ensures found { declaring_at (product_at (T.tables tables.now) bean) at ≡ result }
    ensures few { IfSome result (λ _. at + 1 < 2 ^ 64) }
{
    let product = tables.product(bean)?;
    if at >= product.disposers.len() {
        return None;
    }
    Some(product.declaring)
}

/// Calls the next disposer of a product, with the product.
fn call_next(alloc: Global, declaring: u32, disposal: Disposal) -> Result<Next, AllocError>
    requires { disposal.next + 1 < 2 ^ 64 }
    ensures { IfOk result (CallsDisposer disposal declaring) }
{
    let Disposal {
        number,
        bean,
        next,
        value,
    } = disposal;
    let mut args = Seq::empty(alloc);
    args.push(value.clone()?)?;
    let callee = Callee::Disposer { bean, at: next };
    let call = ContainerCall {
        declaring,
        callee,
        args,
    };
    let call = Box::new(alloc, call)?;
    let next = next + 1;
    let others = Disposal {
        number,
        bean,
        next,
        value,
    };
    let others = Box::new(alloc, others)?;
    Ok(Next::Needs(Task::Calling(call), Frame::Disposing(others)))
}

/// A disposer has disposed of the product: the next one does.
pub fn disposed<T: Tables, W: Contents>(
    tables: &T,
    world: &W,
    disposal: Box<Disposal>,
    _given: Given,
) -> Result<Next, AllocError>
    ensures { IfOk result (λ next. GoesOn (T.tables tables.now) (Frame.Disposing disposal)
        (Completion.Gave _given) (W.world world.now) next (W.world world.now)) }
{
    dispose_next(tables, world.alloc(), Box::into_inner(disposal))
}
