//! How an instance begins.
ghost use Rattle.std.specs.Prelude.{◌≡◌, ◌<◌, ◌+◌, ◌^◌, OnOk, OnErr};
ghost use Rattle.cdi_store.specs.Live.{with_newborn};
ghost use Rattle.cdi_store.specs.declared.instance.Component.TheVariants.{Bean};
ghost use Rattle.cdi_store.specs.declared.instance.Owner.TheVariants as owners;
ghost use Rattle.cdi_contexts.specs.Contexts.{with_held};
ghost use Rattle.cdi_contexts.specs.declared.context.Held.TheVariants.{Making};

use crate::named::scope_of;
use cdi_base::Fields;
use cdi_contexts::{Contexts, Held};
use cdi_store::numbered::make_in;
use cdi_store::{Component, Context, Owner, Store};
use std::alloc::AllocError;

/// A new instance of a bean gets the next number, and its context has it as one that is being made.
/// On an error nothing changes.
pub(crate) fn make_shared(
    contexts: &mut Contexts,
    store: &mut Store,
    bean: u32,
    context: Context,
    fields: Fields,
) -> Result<(), AllocError>
    requires { store.old.next < 2 ^ 32 }
    ensures instances { OnOk result (store.new.instances
        ≡ with_newborn store.old.next (Bean bean) (owners.Context context) fields
        store.old.instances) }
    ensures next { OnOk result (store.new.next ≡ store.old.next + 1) }
    ensures held { OnOk result (contexts.new.contexts
        ≡ with_held bean Making context contexts.old.contexts) }
    ensures store { OnErr result (store.new ≡ store.old) }
    ensures contexts { OnErr result (contexts.new ≡ contexts.old) }
{
    let scope = scope_of(&context);
    let env = contexts.environment(&context);
    let component = Component::Bean(bean);
    let owner = Owner::Context(context);
    if contexts.entry(scope, bean, env).is_some() {
        // What takes the place of another entry needs no memory.
        make_in(store, component, owner, fields)?;
        return contexts.put(scope, bean, env, Held::Making);
    }
    contexts.put(scope, bean, env, Held::Making)?;
    match make_in(store, component, owner, fields) {
        Ok(()) => Ok(()),
        Err(error) => {
            contexts.leave(scope, bean, env);
            Err(error)
        }
    }
}
