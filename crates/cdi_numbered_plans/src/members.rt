//! Members whose parameters are injected: producers and disposers (Jakarta CDI 4.0, *Lifecycle of producer methods*, *Lifecycle of
//! producer fields*), and what runs where an observer is notified.
ghost use Rattle.std.specs.Prelude.{◌≡◌, map, IfOk, IsTrue};
ghost use Rattle.std.specs.List.{list_all};
ghost use Rattle.cdi_numbered_plans.specs.Numbered as spec;
ghost use Rattle.cdi_numbered_plans.specs.Numbers as sizes;

use crate::codes::{chain_of, code_of};
use crate::numbering::Numbering;
use crate::points::points_of;
use cdi_base::Seq;
use cdi_cache::Lookup;
use cdi_machine::{Member, Source};
use cdi_plans::{InjectedMethod, Source as NamedSource};
use cdi_resolve::Resolver;
use std::alloc::{AllocError, Global};

/// A producer method, a disposer, or what runs where an observer is notified.
pub(crate) fn member_of(
    alloc: Global,
    numbering: &Numbering<'_>,
    lookup: &mut Lookup<&Resolver>,
    member: &InjectedMethod,
) -> Result<Member, AllocError>
    requires asks { spec.AsksNumbered numbering.now lookup.old.now }
    requires numbers { IsTrue (sizes.numbers_member member.now) }
    ensures member { IfOk result (λ made. made ≡ spec.member_by numbering.now member.now) }
    ensures kept { spec.AsksNumbered numbering.now lookup.new.now }
{
    Ok(Member {
        code: code_of(numbering.ids, &member.code),
        points: points_of(alloc, numbering, lookup, member.points.as_slice())?,
        chain: chain_of(alloc, member.chain.as_slice())?,
    })
}

/// Some disposers, in their order.
pub(crate) fn members_of(
    alloc: Global,
    numbering: &Numbering<'_>,
    lookup: &mut Lookup<&Resolver>,
    members: &[InjectedMethod],
) -> Result<Seq<Member>, AllocError>
    requires asks { spec.AsksNumbered numbering.now lookup.old.now }
    requires numbers { IsTrue (list_all sizes.numbers_member members.now) }
    ensures members { IfOk result (λ all. all ≡ map (spec.member_by numbering.now) members.now) }
    ensures kept { spec.AsksNumbered numbering.now lookup.new.now }
{
    let mut all = Seq::empty(alloc);
    for member in members {
        all.push(member_of(alloc, numbering, lookup, member)?)?;
    }
    Ok(all)
}

/// What gives an instance of a product.
pub(crate) fn source_of(
    alloc: Global,
    numbering: &Numbering<'_>,
    lookup: &mut Lookup<&Resolver>,
    source: &NamedSource,
) -> Result<Source, AllocError>
    requires asks { spec.AsksNumbered numbering.now lookup.old.now }
    requires numbers { IsTrue (sizes.numbers_source source.now) }
    ensures source { IfOk result (λ made. made ≡ spec.source_by numbering.now source.now) }
    ensures kept { spec.AsksNumbered numbering.now lookup.new.now }
{
    match source {
        NamedSource::ProducerMethod(method) => {
            Ok(Source::Method(member_of(alloc, numbering, lookup, method)?))
        }
        NamedSource::ProducerField(field) => Ok(Source::Field(*field)),
    }
}
