//! Injection points with what they resolve to.
ghost use Rattle.std.specs.Prelude.{◌≡◌, map, IfOk};
ghost use Rattle.cdi_bean_check.specs.Qualifiers.{full_uses};
ghost use Rattle.cdi_numbered_plans.specs.Numbered as spec;
ghost use Rattle.cdi_resolve.specs.Filters.{enabled_of};
ghost use Rattle.cdi_resolve.specs.Resolution.{resolution};

use crate::numbering::Numbering;
use cdi_base::{Name, Names, Seq, Use};
use cdi_cache::Lookup;
use cdi_deployment::{InjectedField, Point as DeclaredPoint};
use cdi_machine::{Point, Resolution};
use cdi_quals::{QualSet, QualifierTypes};
use cdi_resolve::{Resolution as Resolved, Resolver};
use std::alloc::{AllocError, Global};

/// What a type and qualifiers, as they were written, resolve to among the beans of a lookup (Jakarta CDI 4.0, *Typesafe resolution*),
/// by the names of a deployment and the types of its qualifiers.
pub fn resolution_at(
    alloc: Global,
    names: &Names,
    qualifiers: &QualifierTypes,
    lookup: &mut Lookup<&Resolver>,
    ty: Name,
    uses: &[Use],
) -> Result<Resolved, AllocError>
    ensures told { IfOk result (λ told. told
        ≡ resolution ty (full_uses qualifiers.now uses.now) (enabled_of lookup.old.now)) }
    ensures kept { enabled_of lookup.new.now ≡ enabled_of lookup.old.now }
{
    let required = QualSet::new(alloc, names, qualifiers, uses)?;
    Ok(lookup.find(ty, &required))
}

/// What the injection points of some injected fields resolve to among the beans of a lookup, in their order.
pub fn resolutions_at(
    alloc: Global,
    names: &Names,
    qualifiers: &QualifierTypes,
    lookup: &mut Lookup<&Resolver>,
    fields: &[InjectedField],
) -> Result<Seq<Resolved>, AllocError>
    ensures told { IfOk result (λ all. all
        ≡ map (spec.field_resolution qualifiers.now lookup.old.now) fields.now) }
    ensures kept { enabled_of lookup.new.now ≡ enabled_of lookup.old.now }
{
    let mut all = Seq::empty(alloc);
    for field in fields {
        let uses = field.quals.as_slice();
        all.push(resolution_at(alloc, names, qualifiers, lookup, field.ty, uses)?)?;
    }
    Ok(all)
}

/// What resolution tells, with a bean by its number.
fn numbered(resolved: Resolved) -> Resolution
    requires { spec.HasNumber resolved }
    ensures { result ≡ spec.numbered_resolution resolved }
{
    match resolved {
        Resolved::One(bean) => Resolution::One(bean as u32),
        Resolved::Nothing => Resolution::Nothing,
        Resolved::Many => Resolution::Many,
    }
}

/// The same, with a bean by its number.
pub(crate) fn numbered_at(
    alloc: Global,
    numbering: &Numbering<'_>,
    lookup: &mut Lookup<&Resolver>,
    ty: Name,
    uses: &[Use],
) -> Result<Resolution, AllocError>
    requires { spec.AsksNumbered numbering.now lookup.old.now }
    ensures told { IfOk result (λ told. told
        ≡ spec.numbered_resolution (spec.resolution_by numbering.now ty uses.now)) }
    ensures kept { spec.AsksNumbered numbering.now lookup.new.now }
{
    let names = numbering.names;
    let resolved = resolution_at(alloc, names, numbering.qualifiers, lookup, ty, uses)?;
    Ok(numbered(resolved))
}

/// An injection point with what it resolves to.
pub(crate) fn point_of(
    alloc: Global,
    numbering: &Numbering<'_>,
    lookup: &mut Lookup<&Resolver>,
    point: &DeclaredPoint,
) -> Result<Point, AllocError>
    requires { spec.AsksNumbered numbering.now lookup.old.now }
    ensures point { IfOk result (λ made. made ≡ spec.point_by numbering.now point.now) }
    ensures kept { spec.AsksNumbered numbering.now lookup.new.now }
{
    let uses = point.quals.as_slice();
    let resolution = numbered_at(alloc, numbering, lookup, point.ty, uses)?;
    Ok(Point {
        bean_type: point.ty,
        qualifiers: point.quals.clone()?,
        resolution,
    })
}

/// Some injection points, in their order.
pub(crate) fn points_of(
    alloc: Global,
    numbering: &Numbering<'_>,
    lookup: &mut Lookup<&Resolver>,
    points: &[DeclaredPoint],
) -> Result<Seq<Point>, AllocError>
    requires { spec.AsksNumbered numbering.now lookup.old.now }
    ensures points { IfOk result (λ all. all ≡ map (spec.point_by numbering.now) points.now) }
    ensures kept { spec.AsksNumbered numbering.now lookup.new.now }
{
    let mut all = Seq::empty(alloc);
    for point in points {
        all.push(point_of(alloc, numbering, lookup, point)?)?;
    }
    Ok(all)
}
