//! Products in the words of an instance's life.
ghost use Rattle.std.specs.Prelude.{◌≡◌, option_map, IfOk, IsTrue};
ghost use Rattle.cdi_event_tables.specs.Observers as observers;
ghost use Rattle.cdi_numbered_plans.specs.Numbered as spec;
ghost use Rattle.cdi_numbered_plans.specs.Numbers as sizes;
ghost use Rattle.cdi_numbered_plans.specs.Plans.{IsNumberedProduct};

use crate::members::{members_of, source_of};
use crate::numbering::Numbering;
use cdi_cache::Lookup;
use cdi_machine::Product;
use cdi_plans::ProductPlan;
use cdi_resolve::Resolver;
use std::alloc::{AllocError, Global};

/// Where an instance of a product of a managed bean comes from, and what disposes of it.
fn product_of(
    alloc: Global,
    numbering: &Numbering<'_>,
    lookup: &mut Lookup<&Resolver>,
    plan: &ProductPlan,
    declaring: u32,
) -> Result<Product, AllocError>
    requires asks { spec.AsksNumbered numbering.now lookup.old.now }
    requires numbers { IsTrue (sizes.numbers_product plan.now) }
    ensures product { IfOk result
        (λ product. product ≡ spec.product_by numbering.now plan.now declaring) }
    ensures kept { spec.AsksNumbered numbering.now lookup.new.now }
{
    Ok(Product {
        declaring,
        source: source_of(alloc, numbering, lookup, &plan.source)?,
        disposers: members_of(alloc, numbering, lookup, plan.disposers.as_slice())?,
    })
}

/// A product in the words of an instance's life; none if the class that declares its producer is no managed bean.
fn declared_product(
    alloc: Global,
    numbering: &Numbering<'_>,
    lookup: &mut Lookup<&Resolver>,
    plan: &ProductPlan,
) -> Result<Option<Product>, AllocError>
    requires asks { spec.AsksNumbered numbering.now lookup.old.now }
    requires numbers { IsTrue (sizes.numbers_product plan.now) }
    ensures product { IfOk result (λ made. made ≡ option_map
        (spec.product_by numbering.now plan.now)
        (observers.managed_bean numbering.now.resolver.now.beans plan.now.declaring)) }
    ensures kept { spec.AsksNumbered numbering.now lookup.new.now }
{
    let Some(declaring) = numbering.managed_bean(plan.declaring) else {
        return Ok(None);
    };
    let product = product_of(alloc, numbering, lookup, plan, declaring as u32)?;
    Ok(Some(product))
}

/// A product in the words of an instance's life: what the machine is told of it (Jakarta CDI 4.0, *Lifecycle of producer methods*), with
/// what each injection point resolves to. There is none if what its plan names can't be numbered ([`Numbering::can_number`]), nor if the
/// class that declares its producer is no managed bean. The lookup has to ask among the beans that plans are numbered by.
pub fn numbered_product(
    alloc: Global,
    numbering: &Numbering<'_>,
    lookup: &mut Lookup<&Resolver>,
    plan: &ProductPlan,
) -> Result<Option<Product>, AllocError>
    requires { spec.AsksOf numbering.now lookup.old.now }
    ensures numbered { IfOk result (IsNumberedProduct numbering.now plan.now) }
    ensures kept { spec.AsksOf numbering.now lookup.new.now }
{
    if numbering.can_number(plan) {
        declared_product(alloc, numbering, lookup, plan)
    } else {
        Ok(None)
    }
}
