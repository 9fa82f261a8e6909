//! The enabled beans that have a type and qualifiers.
ghost use Rattle.std.specs.Prelude.{◌≡◌, ◌&&◌, filter, IfOk};
ghost use Rattle.cdi_bean_check.specs.Qualifiers as written;
ghost use Rattle.cdi_quals.specs.Qualifiers as quals;
ghost use Rattle.cdi_resolve.specs.Filters as filters;
ghost use Rattle.cdi_resolve.specs.Resolution as spec;

use cdi_base::{BuiltIn, Name, Seq, Use};
use cdi_beans::Bean;
use cdi_quals::{Qualifier, QualifierTypes};
use cdi_resolve::enabled_bean::enabled_of;
use cdi_resolve::{BeanTables, EnabledBean};
use std::alloc::{AllocError, Global};

/// Uses with all the members of their types.
fn full_uses(
    alloc: Global,
    types: &QualifierTypes,
    uses: &[Use],
) -> Result<Vec<Qualifier>, AllocError>
    ensures { IfOk result (λ full. full.items ≡ written.full_uses types.now uses.now) }
{
    let mut full = Vec::new(alloc);
    for written in uses {
        full.push(Qualifier::new(alloc, types, written)?)?;
    }
    Ok(full)
}

/// What is required by qualifiers as they were written: if nothing is written, `Default`.
pub(crate) fn required(
    alloc: Global,
    types: &QualifierTypes,
    uses: &[Use],
) -> Result<Vec<Qualifier>, AllocError>
    ensures { IfOk result (λ required.
        required.items ≡ filters.required (written.full_uses types.now uses.now)) }
{
    let mut required = full_uses(alloc, types, uses)?;
    if required.is_empty() {
        required.push(Qualifier {
            name: BuiltIn::Default.name(),
            members: Seq::empty(alloc),
        })?;
    }
    Ok(required)
}

pub(crate) fn has_type(bean: &Bean, ty: Name) -> bool
    ensures { result ≡ filters.has_type ty bean.now }
{
    bean.types.iter().any(|own| *own == ty)
}

pub(crate) fn has_all(bean: &Bean, required: &[Qualifier]) -> bool
    ensures { result ≡ quals.has_all bean.now.qualifiers required.now }
{
    required
        .iter()
        .all(|qualifier| bean.qualifiers.has(qualifier))
}

/// Those of some beans that have a type and each required qualifier.
fn keep_fitting(ty: Name, required: &[Qualifier], beans: &mut Vec<EnabledBean<'_>>)
    ensures { beans.new.items ≡ filter
        (λ b. filters.has_type ty b.1 && quals.has_all b.1.qualifiers required.now)
        beans.old.items }
{
    beans.retain(|bean| has_type(bean.bean(), ty) && has_all(bean.bean(), required));
}

/// The enabled beans that have a type and each of the qualifiers as they were written; no qualifiers stand for `Default`.
pub(crate) fn eligible<'a>(
    alloc: Global,
    tables: &'a BeanTables,
    ty: Name,
    uses: &[Use],
) -> Result<Vec<EnabledBean<'a>>, AllocError>
    ensures { IfOk result (λ beans. beans.items ≡ spec.eligible ty
        (written.full_uses tables.now.declared.qualifiers uses.now)
        (filters.enabled_of tables.now.resolver)) }
{
    let required = required(alloc, &tables.declared.qualifiers, uses)?;
    let resolver = &tables.resolver;
    let mut beans = enabled_of(alloc, resolver.beans(), resolver.flags())?.into_vec();
    keep_fitting(ty, required.as_slice(), &mut beans);
    Ok(beans)
}
