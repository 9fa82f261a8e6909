//! The business methods of a bean, by their names (Jakarta CDI 4.0, *Container invocations and interception*).
ghost use Rattle.std.specs.Prelude.{◌≡◌, ℕ, option_map, IfOk, IsTrue};
ghost use Rattle.cdi_base.specs.Maps.{at};
ghost use Rattle.cdi_event_tables.specs.Ids.{id_in};
ghost use Rattle.cdi_method_maps.specs.NamedMethods.{method_named};
ghost use Rattle.cdi_numbered_plans.specs.Machine as machine;
ghost use Rattle.cdi_numbered_plans.specs.Methods as spec;
ghost use Rattle.cdi_numbered_plans.specs.Numbers as sizes;

use crate::codes::chain_of;
use cdi_base::{Name, Seq};
use cdi_bodies::BodyId;
use cdi_event_tables::BodyIds;
use cdi_machine::{Code, Method};
use cdi_method_maps::NamedMethod;
use cdi_plans::BusinessMethod;
use std::alloc::{AllocError, Global};

/// A method with its registered body.
fn method_of(alloc: Global, method: &BusinessMethod, body: BodyId) -> Result<Method, AllocError>
    requires { IsTrue (sizes.numbers_method method.now) }
    ensures { IfOk result (λ made. made
        ≡ spec.method_by (machine.method_with method.now body).1) }
{
    let chain = chain_of(alloc, method.chain.as_slice())?;
    Ok(Method {
        code: Code::new(method.code.place, body),
        count: method.count,
        chain,
    })
}

/// The methods of these whose bodies are registered, with their names, in their order. The places of the interceptors round each have to be
/// numbers of 32 bits.
pub fn named_methods(
    alloc: Global,
    ids: &BodyIds,
    methods: &[BusinessMethod],
) -> Result<Seq<NamedMethod>, AllocError>
    requires { IsTrue (sizes.numbers_methods methods.now) }
    ensures { IfOk result (λ named. (name : ℕ) → method_named name named
        ≡ option_map spec.method_by
        (at (machine.machine_methods (id_in ids.now) methods.now) name)) }
{
    let mut named = Seq::empty(alloc);
    for method in methods {
        if let Some(body) = ids.id(method.code.body) {
            named.push(NamedMethod {
                name: method.name,
                method: method_of(alloc, method, body)?,
            })?;
        }
    }
    Ok(named)
}
