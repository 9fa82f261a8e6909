//! What is left for what a point asks for.
ghost use Rattle.std.specs.Prelude.{◌≡◌, map, IfOk};
ghost use Rattle.cdi_base.specs.Maps.{at};
ghost use Rattle.cdi_bean_check.specs.Qualifiers.{full_uses};
ghost use Rattle.cdi_candidates.specs.Candidates as spec;
ghost use Rattle.cdi_resolve.specs.Filters.{enabled_of};

use crate::narrowed::narrow;
use crate::qualified::eligible;
use cdi_base::{Name, Place, Seq, Use};
use cdi_beans::{Bean, BeanKind};
use cdi_resolve::{BeanTables, EnabledBean, Resolution, Resolver};
use std::alloc::{AllocError, Global};

/// Where a bean is declared: at its class, or at the producer.
pub fn place_of(bean: &Bean) -> Place
    ensures { result ≡ spec.place_of bean.now }
{
    match bean.kind {
        BeanKind::Managed => Place::Class(bean.class),
        BeanKind::ProducerMethod(member) | BeanKind::ProducerField(member) => Place::Member {
            class: bean.class,
            member,
        },
    }
}

fn places_of(alloc: Global, beans: &[EnabledBean<'_>]) -> Result<Seq<Place>, AllocError>
    ensures { IfOk result (λ places. places ≡ map (λ b. spec.place_of b.1) beans.now) }
{
    let mut places = Seq::empty(alloc);
    for bean in beans {
        places.push(place_of(bean.bean()))?;
    }
    Ok(places)
}

/// The place of the enabled bean with an index, if there is one.
fn place_at(alloc: Global, resolver: &Resolver, index: usize) -> Result<Seq<Place>, AllocError>
    ensures { IfOk result (λ places. places ≡ spec.place_if (at (enabled_of resolver.now) index)) }
{
    let mut places = Seq::empty(alloc);
    if let Some(bean) = resolver.bean(index) {
        places.push(place_of(bean))?;
    }
    Ok(places)
}

/// The places of the beans that are left, of which all enabled ones are looked at.
fn several(
    alloc: Global,
    tables: &BeanTables,
    ty: Name,
    uses: &[Use],
) -> Result<Seq<Place>, AllocError>
    ensures { IfOk result (λ places. places ≡ spec.candidates ty
        (full_uses tables.now.declared.qualifiers uses.now) (enabled_of tables.now.resolver)) }
{
    let mut beans = eligible(alloc, tables, ty, uses)?;
    narrow(&mut beans);
    places_of(alloc, beans.as_slice())
}

/// The places of the beans that are left for a type and qualifiers as they were written, by the tables of a deployment (Jakarta CDI
/// 4.0, *Typesafe resolution*, *Unsatisfied and ambiguous dependencies*): the enabled beans that have the type and each of the
/// qualifiers; of these the alternatives, if some are; and of alternatives that all have a priority those of the highest. No
/// qualifiers stand for `Default`. What is asked for is ambiguous if these are several.
pub fn candidates(
    alloc: Global,
    tables: &BeanTables,
    ty: Name,
    uses: &[Use],
) -> Result<Seq<Place>, AllocError>
    ensures { IfOk result (λ places. places ≡ spec.candidates ty
        (full_uses tables.now.declared.qualifiers uses.now) (enabled_of tables.now.resolver)) }
{
    let resolver = &tables.resolver;
    match resolver.resolve_written(&tables.declared.qualifiers, ty, uses) {
        Resolution::Nothing => Ok(Seq::empty(alloc)),
        Resolution::One(bean) => place_at(alloc, resolver, bean),
        Resolution::Many => several(alloc, tables, ty, uses),
    }
}
