//! The injected fields of an interceptor, as the steps by which an instance is created (Jakarta CDI 4.0, *Injected fields*).
ghost use Rattle.std.specs.Prelude.{◌≡◌, map, IfOk};
ghost use Rattle.cdi_numbered_plans.specs.Numbered as spec;
ghost use Rattle.cdi_numbered_plans.specs.Plans.{AreInjectionsBy};

use crate::numbering::Numbering;
use crate::points::numbered_at;
use cdi_base::Seq;
use cdi_cache::Lookup;
use cdi_deployment::InjectedField;
use cdi_machine::{Point, Step};
use cdi_resolve::Resolver;
use std::alloc::{AllocError, Global};

/// The step of an injected field.
fn injection_of(
    alloc: Global,
    numbering: &Numbering<'_>,
    lookup: &mut Lookup<&Resolver>,
    field: &InjectedField,
) -> Result<Step, AllocError>
    requires { spec.AsksNumbered numbering.now lookup.old.now }
    ensures step { IfOk result (λ step. step ≡ spec.injection_by numbering.now field.now) }
    ensures kept { spec.AsksNumbered numbering.now lookup.new.now }
{
    let uses = field.quals.as_slice();
    let resolution = numbered_at(alloc, numbering, lookup, field.ty, uses)?;
    let point = Point {
        bean_type: field.ty,
        qualifiers: field.quals.clone()?,
        resolution,
    };
    Ok(Step::Inject {
        field: field.name,
        point,
    })
}

/// Those of some injected fields, in their order.
fn injections_of(
    alloc: Global,
    numbering: &Numbering<'_>,
    lookup: &mut Lookup<&Resolver>,
    fields: &[InjectedField],
) -> Result<Seq<Step>, AllocError>
    requires { spec.AsksNumbered numbering.now lookup.old.now }
    ensures steps { IfOk result (λ all. all ≡ map (spec.injection_by numbering.now) fields.now) }
    ensures kept { spec.AsksNumbered numbering.now lookup.new.now }
{
    let mut all = Seq::empty(alloc);
    for field in fields {
        all.push(injection_of(alloc, numbering, lookup, field)?)?;
    }
    Ok(all)
}

/// The steps of some injected fields, in their order, each with what its injection point resolves to. There are none if there are too many
/// beans to be numbered. The lookup has to ask among the beans that plans are numbered by.
pub fn injections_by(
    alloc: Global,
    numbering: &Numbering<'_>,
    lookup: &mut Lookup<&Resolver>,
    fields: &[InjectedField],
) -> Result<Seq<Step>, AllocError>
    requires { spec.AsksOf numbering.now lookup.old.now }
    ensures steps { IfOk result (AreInjectionsBy numbering.now fields.now) }
    ensures kept { spec.AsksOf numbering.now lookup.new.now }
{
    if numbering.has_few_beans() {
        injections_of(alloc, numbering, lookup, fields)
    } else {
        Ok(Seq::empty(alloc))
    }
}
