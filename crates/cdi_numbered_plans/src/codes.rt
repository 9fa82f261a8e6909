//! Bodies, and what runs at a point of the life of an instance.
ghost use Rattle.std.specs.Prelude.{◌≡◌, map, IfOk, IsTrue};
ghost use Rattle.cdi_event_tables.specs.Ids.{id_in};
ghost use Rattle.cdi_numbered_plans.specs.Machine.{machine_code};
ghost use Rattle.cdi_numbered_plans.specs.Numbered as spec;
ghost use Rattle.cdi_numbered_plans.specs.Numbers.{are_numbers, numbers_lifecycle};

use cdi_base::Seq;
use cdi_bodies::BodyId;
use cdi_event_tables::BodyIds;
use cdi_machine::{Code, Lifecycle};
use cdi_plans::{Code as NamedCode, Lifecycle as NamedLifecycle};
use std::alloc::{AllocError, Global};

/// A body, by its number.
pub(crate) fn code_of(ids: &BodyIds, code: &NamedCode) -> Code
    ensures { result ≡ machine_code (id_in ids.now) code.now }
{
    let body = match ids.id(code.body) {
        Some(body) => body,
        None => BodyId::unregistered(),
    };
    Code::new(code.place, body)
}

/// Some bodies, by their numbers.
pub fn codes_of(alloc: Global, ids: &BodyIds, codes: &[NamedCode]) -> Result<Seq<Code>, AllocError>
    ensures { IfOk result (λ all. all ≡ map (machine_code (id_in ids.now)) codes.now) }
{
    let mut all = Seq::empty(alloc);
    for code in codes {
        all.push(code_of(ids, code))?;
    }
    Ok(all)
}

/// The places of the interceptors of a chain.
pub(crate) fn chain_of(alloc: Global, places: &[usize]) -> Result<Seq<u32>, AllocError>
    requires { IsTrue (are_numbers places.now) }
    ensures { IfOk result (λ chain. chain ≡ places.now) }
{
    let mut chain = Seq::empty(alloc);
    for place in places {
        chain.push(*place as u32)?;
    }
    Ok(chain)
}

/// What runs at a point of the life of an instance. The places of its interceptors have to be numbers of 32 bits.
pub fn lifecycle_of(
    alloc: Global,
    ids: &BodyIds,
    lifecycle: &NamedLifecycle,
) -> Result<Lifecycle, AllocError>
    requires { IsTrue (numbers_lifecycle lifecycle.now) }
    ensures { IfOk result (λ life. life ≡ spec.lifecycle_by (id_in ids.now) lifecycle.now) }
{
    let chain = chain_of(alloc, lifecycle.chain.as_slice())?;
    let callbacks = codes_of(alloc, ids, lifecycle.callbacks.as_slice())?;
    Ok(Lifecycle { chain, callbacks })
}
