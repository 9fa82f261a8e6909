//! The qualifiers that beans have by what is declared.
ghost use Rattle.std.specs.Prelude.{◌≡◌, ◌++◌, ◌∷◌, [], map, Contains, IfOk, OnOk};
ghost use Rattle.cdi_bean_check.specs.Qualifiers as spec;
ghost use Rattle.cdi_beans.specs.ManagedQualifiers.{own_uses, AreManaged};
ghost use Rattle.cdi_beans.specs.SpecializedParts.{HasOwn};
ghost use Rattle.cdi_types.specs.Declarations.{of_class};
ghost use Rattle.cdi_types.specs.Subtype.{IsAcyclic};

use crate::qualifiers::BeanQualifiers;
use crate::specialized_parts::SpecializedParts;
use cdi_base::{BuiltIn, Seq, Use};
use cdi_bean_check::BeanClasses;
use cdi_deployment::Class;
use cdi_quals::{Qualifier, QualifierTypes};
use std::alloc::{AllocError, Global};

fn plain_use(alloc: Global, qualifier: BuiltIn) -> Use
    ensures { result ≡ spec.plain_use qualifier }
{
    Use {
        name: qualifier.name(),
        members: Seq::empty(alloc),
    }
}

/// Whether no qualifier but `Named` and `Any` is used.
fn names_no_other(uses: &[Use]) -> bool
    ensures { result ≡ spec.names_no_other uses.now }
{
    uses.iter().all(|used| used.name == BuiltIn::Named.name() || used.name == BuiltIn::Any.name())
}

/// Adds uses, each with all members of its type.
fn add_uses(
    alloc: Global,
    types: &QualifierTypes,
    uses: &[Use],
    full: &mut Seq<Qualifier>,
) -> Result<(), AllocError>
    ensures { OnOk result (full.new ≡ full.old ++ spec.full_uses types.now uses.now) }
{
    for written in uses {
        full.push(Qualifier::new(alloc, types, written)?)?;
    }
    Ok(())
}

/// Adds a qualifier that is built in and has no members.
fn add_plain(
    alloc: Global,
    types: &QualifierTypes,
    qualifier: BuiltIn,
    full: &mut Seq<Qualifier>,
) -> Result<(), AllocError>
    ensures { OnOk result
        (full.new ≡ full.old ++ spec.full_uses types.now (spec.plain_use qualifier ∷ [])) }
{
    let written = plain_use(alloc, qualifier);
    full.push(Qualifier::new(alloc, types, &written)?)?;
    Ok(())
}

/// Adds `Any`, and `Default` if the bean has that.
fn add_built_in(
    alloc: Global,
    types: &QualifierTypes,
    has_default: bool,
    full: &mut Seq<Qualifier>,
) -> Result<(), AllocError>
    ensures { OnOk result (full.new ≡ full.old
        ++ spec.full_uses types.now (spec.plain_use BuiltIn.Any ∷ spec.default_if has_default)) }
{
    add_plain(alloc, types, BuiltIn::Any, full)?;
    if has_default {
        add_plain(alloc, types, BuiltIn::Default, full)?;
    }
    Ok(())
}

/// These uses, and those that are built in.
fn full_uses(
    alloc: Global,
    types: &QualifierTypes,
    declared: &[Use],
    has_default: bool,
) -> Result<Seq<Qualifier>, AllocError>
    ensures { IfOk result (λ full. full ≡ spec.full_uses types.now
        (declared.now ++ spec.plain_use BuiltIn.Any ∷ spec.default_if has_default)) }
{
    let mut full = Seq::empty(alloc);
    add_uses(alloc, types, declared, &mut full)?;
    add_built_in(alloc, types, has_default, &mut full)?;
    Ok(full)
}

/// The qualifiers of a bean that declares these and specializes none: also `Any`, and `Default` if it declares none but `Named` and
/// `Any` (Jakarta CDI 4.0, *Built-in qualifier types*).
pub(crate) fn with_built_in(
    alloc: Global,
    types: &QualifierTypes,
    declared: &[Use],
) -> Result<Seq<Qualifier>, AllocError>
    ensures { IfOk result
        (λ full. full ≡ spec.full_uses types.now (spec.uses_with_built_in declared.now)) }
{
    full_uses(alloc, types, declared, names_no_other(declared))
}

/// What a specializing bean that declares these has besides the qualifiers of the bean that it specializes (Jakarta CDI 4.0,
/// *Specialization*).
fn specializing(
    alloc: Global,
    types: &QualifierTypes,
    declared: &[Use],
) -> Result<Seq<Qualifier>, AllocError>
    ensures { IfOk result
        (λ full. full ≡ spec.full_uses types.now (spec.specializing_uses declared.now)) }
{
    let has_default = !declared.is_empty() && names_no_other(declared);
    full_uses(alloc, types, declared, has_default)
}

/// What a class declares as the qualifiers of its bean.
fn declared_uses(class: &Class) -> &[Use]
    ensures { result.now ≡ spec.declared_uses class.now.bean }
{
    match &class.bean {
        Some(bean) => bean.quals.as_slice(),
        None => &[],
    }
}

/// What a managed bean has besides the qualifiers of the bean that it specializes, if it specializes one.
pub(crate) fn own_qualifiers(
    alloc: Global,
    types: &QualifierTypes,
    beans: &BeanClasses<'_>,
    class: &Class,
) -> Result<Seq<Qualifier>, AllocError>
    ensures { IfOk result
        (λ full. full ≡ spec.full_uses types.now (own_uses beans.now class.now)) }
{
    let declared = declared_uses(class);
    match beans.specialized(class) {
        Some(_) => specializing(alloc, types, declared),
        None => with_built_in(alloc, types, declared),
    }
}

/// The qualifiers of a managed bean, with those of the beans that it specializes, of which the parts may have some.
pub(crate) fn managed_qualifiers<'a>(
    alloc: Global,
    types: &QualifierTypes,
    beans: &BeanClasses<'a>,
    parts: &mut SpecializedParts,
    class: &'a Class,
) -> Result<BeanQualifiers, AllocError>
    requires acyclic { IsAcyclic (map of_class beans.now) }
    requires listed { Contains beans.now class.now }
    requires own { HasOwn beans.now types.now parts.old }
    ensures are { IfOk result (AreManaged beans.now types.now class.now) }
    ensures own { OnOk result (HasOwn beans.now types.now parts.new) }
{
    let own = own_qualifiers(alloc, types, beans, class)?;
    let specialized = parts.of_class(alloc, types, beans, class)?;
    Ok(BeanQualifiers::with(own, specialized))
}
