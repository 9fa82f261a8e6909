//! The steps of what is done with the instance behind a reference.
ghost use Rattle.std.specs.Prelude.{◌≡◌, IfOk, OnErr};
ghost use Rattle.cdi_steps.specs.Meanings.{read_instance, use_instance};
ghost use Rattle.cdi_steps.specs.Steps.{Settles};

use crate::ends::{given, missing, null};
use crate::invocations::invoke;
use crate::task::{Given, Next, Purpose};
use cdi_host::{Contents, Tables};
use std::alloc::AllocError;

/// Calls a business method of an instance (Jakarta CDI 4.0, *Container invocations and interception*), or reads or changes what a
/// product holds.
pub fn use_instance<T: Tables, W: Contents>(
    tables: &T,
    world: &mut W,
    number: u32,
    purpose: Purpose,
) -> Result<Next, AllocError>
    ensures step { IfOk result (λ next. Settles (T.tables tables.now)
        (use_instance number purpose) 3 (W.world world.old) next (W.world world.new)) }
    ensures kept { OnErr result (W.world world.new ≡ W.world world.old) }
{
    match purpose {
        Purpose::Call { method, args } => invoke(tables, world, number, method, args),
        Purpose::Read => read(tables, world, number),
        Purpose::Write(value) => {
            world.hold(number, value);
            Ok(null())
        }
    }
}

/// Reads the value that an instance holds, as a product (Jakarta CDI 4.0, *Producer methods*).
fn read<T: Tables, W: Contents>(_tables: &T, world: &W, number: u32) -> Result<Next, AllocError>
    ensures { IfOk result (λ next. Settles (T.tables _tables.now) (read_instance number) 3
        (W.world world.now) next (W.world world.now)) }
{
    let Some(instance) = world.instance(number) else {
        return Ok(missing());
    };
    Ok(given(Given::Result(instance.value.clone()?)))
}
