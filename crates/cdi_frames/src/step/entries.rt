//! What comes after an entry.
ghost use Rattle.std.specs.Prelude.{◌≡◌, IfOk, OnErr};
ghost use Rattle.cdi_steps.specs.Known.{KnownContinuation};
ghost use Rattle.cdi_steps.specs.Steps.{Follows};

use super::bodies;
use cdi_events::observers;
use cdi_host::{Contents, Tables};
use cdi_steps::task::{Continuation, Next};
use cdi_steps::{creation, destruction, products};
use std::alloc::AllocError;

/// What comes after an entry, up to what it needs or writes. Memory can be wanting; on an error nothing changes.
pub(crate) fn go_on<T: Tables, W: Contents>(
    tables: &T,
    world: &mut W,
    continuation: Continuation,
) -> Result<Next, AllocError>
    requires { KnownContinuation (T.tables tables.now) (W.world world.old) continuation }
    ensures step { IfOk result (λ next. Follows (T.tables tables.now) continuation
        (W.world world.old) next (W.world world.new)) }
    ensures kept { OnErr result (W.world world.new ≡ W.world world.old) }
{
    match continuation {
        Continuation::Making {
            number,
            component,
            owner,
        } => creation::make(tables, world, number, component, owner),
        Continuation::Settling { number } => creation::settle(tables, world, number),
        Continuation::Discarding { number, exception } => {
            Ok(creation::discard(tables, world, number, exception))
        }
        Continuation::Dropping { number } => Ok(products::drop_null(tables, world, number)),
        Continuation::Starting(running) => bodies::start(tables, world, running),
        Continuation::Performing(performance) => bodies::perform(tables, world, performance),
        Continuation::Leaving { number } => destruction::leave(tables, world, number),
        Continuation::Removing { number } => Ok(destruction::remove(tables, world, number)),
        Continuation::Freeing { number, dependent } => {
            Ok(destruction::free_one(number, dependent))
        }
        Continuation::Publishing(event) => observers::deliver(tables, world, event),
        Continuation::Delivering(delivery) => observers::deliver_to(tables, world, delivery),
    }
}
