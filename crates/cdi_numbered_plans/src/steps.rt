//! The steps by which an instance of a managed bean is created (Jakarta CDI 4.0, *Lifecycle of managed beans*).
ghost use Rattle.std.specs.Prelude.{◌≡◌, IfOk, IsTrue};
ghost use Rattle.std.specs.List.{list_all};
ghost use Rattle.cdi_numbered_plans.specs.Machine as machine;
ghost use Rattle.cdi_numbered_plans.specs.Numbered as spec;
ghost use Rattle.cdi_numbered_plans.specs.Numbers as sizes;

use crate::codes::{code_of, lifecycle_of};
use crate::numbering::Numbering;
use crate::points::{point_of, points_of};
use cdi_base::Seq;
use cdi_cache::Lookup;
use cdi_machine::Step;
use cdi_plans::{Lifecycle as NamedLifecycle, Step as NamedStep};
use cdi_resolve::Resolver;
use std::alloc::{AllocError, Global};

/// Whether there is no item.
#[tactic(auto, using(crate::proofs::Empty::has_none_if_empty))]
pub fn has_none<T>(items: &Seq<T>) -> bool
    ensures { result ≡ machine.has_none items.now }
{
    items.is_empty()
}

/// Whether nothing runs at a point of the life of an instance.
pub fn is_idle(lifecycle: &NamedLifecycle) -> bool
    ensures { result ≡ machine.is_idle lifecycle.now }
{
    has_none(&lifecycle.chain) && has_none(&lifecycle.callbacks)
}

/// Whether something runs at a step.
fn does_something(step: &NamedStep) -> bool
    ensures { result ≡ machine.does_something step.now }
{
    match step {
        NamedStep::Construct { points, lifecycle } => !(has_none(points) && is_idle(lifecycle)),
        NamedStep::Complete(lifecycle) => !is_idle(lifecycle),
        NamedStep::Intercept(_) | NamedStep::Inject { .. } | NamedStep::Initialize { .. } => true,
    }
}

/// A step.
fn step_of(
    alloc: Global,
    numbering: &Numbering<'_>,
    lookup: &mut Lookup<&Resolver>,
    step: &NamedStep,
) -> Result<Step, AllocError>
    requires asks { spec.AsksNumbered numbering.now lookup.old.now }
    requires numbers { IsTrue (sizes.numbers_step step.now) }
    ensures step { IfOk result (λ made. made ≡ spec.step_by numbering.now step.now) }
    ensures kept { spec.AsksNumbered numbering.now lookup.new.now }
{
    let ids = numbering.ids;
    match step {
        NamedStep::Intercept(place) => Ok(Step::Intercept(*place as u32)),
        NamedStep::Construct { points, lifecycle } => Ok(Step::Construct {
            points: points_of(alloc, numbering, lookup, points.as_slice())?,
            lifecycle: lifecycle_of(alloc, ids, lifecycle)?,
        }),
        NamedStep::Inject { field, point } => Ok(Step::Inject {
            field: *field,
            point: point_of(alloc, numbering, lookup, point)?,
        }),
        NamedStep::Initialize { code, points } => Ok(Step::Initialize {
            code: code_of(ids, code),
            points: points_of(alloc, numbering, lookup, points.as_slice())?,
        }),
        NamedStep::Complete(lifecycle) => {
            Ok(Step::Complete(lifecycle_of(alloc, ids, lifecycle)?))
        }
    }
}

/// Those of some steps at which something runs, in their order, each with what its injection points resolve to. The beans and the places of
/// interceptors have to be numbers of 32 bits.
pub fn steps_of(
    alloc: Global,
    numbering: &Numbering<'_>,
    lookup: &mut Lookup<&Resolver>,
    steps: &[NamedStep],
) -> Result<Seq<Step>, AllocError>
    requires asks { spec.AsksNumbered numbering.now lookup.old.now }
    requires numbers { IsTrue (list_all sizes.numbers_step steps.now) }
    ensures steps { IfOk result (λ all. all ≡ spec.steps_by numbering.now steps.now) }
    ensures kept { spec.AsksNumbered numbering.now lookup.new.now }
{
    let mut all = Seq::empty(alloc);
    for step in steps {
        if does_something(step) {
            all.push(step_of(alloc, numbering, lookup, step)?)?;
        }
    }
    Ok(all)
}
