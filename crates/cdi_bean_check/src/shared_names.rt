//! Names of fields that the classes of a deployment declare more than once.
ghost use Rattle.std.specs.Prelude.{◌≡◌, ◌++◌, map, nat_eq, IfOk, OnOk};
ghost use Rattle.std.specs.HashSet.{contains};
ghost use Rattle.std.specs.List.{flat_map, list_any};
ghost use Rattle.cdi_bean_check.specs.SharedNames as spec;

use cdi_base::{Name, Seq};
use cdi_deployment::{Class, Field, InjectedField};
use std::alloc::{AllocError, Global};
use std::collections::HashSet;

fn add_fields(fields: &[Field], names: &mut Seq<Name>) -> Result<(), AllocError>
    ensures { OnOk result (names.new ≡ names.old ++ map (λ f. f.name) fields.now) }
{
    for field in fields {
        names.push(field.name)?;
    }
    Ok(())
}

fn add_injected(fields: &[InjectedField], names: &mut Seq<Name>) -> Result<(), AllocError>
    ensures { OnOk result (names.new ≡ names.old ++ map (λ f. f.name) fields.now) }
{
    for field in fields {
        names.push(field.name)?;
    }
    Ok(())
}

/// Adds the names of the fields of a class.
fn add_names(class: &Class, names: &mut Seq<Name>) -> Result<(), AllocError>
    ensures { OnOk result (names.new ≡ names.old ++ spec.fields_in class.now) }
{
    add_fields(class.fields.as_slice(), names)?;
    add_injected(class.inject.as_slice(), names)
}

/// The names of the fields of classes.
fn names_of(alloc: Global, classes: &[Class]) -> Result<Seq<Name>, AllocError>
    ensures { IfOk result (λ names. names ≡ flat_map spec.fields_in classes.now) }
{
    let mut names = Seq::empty(alloc);
    for class in classes {
        add_names(class, &mut names)?;
    }
    Ok(names)
}

/// Those names that stand more than once among these.
fn repeated_in(alloc: Global, names: &[Name]) -> Result<HashSet<Name>, AllocError>
    ensures { IfOk result (spec.HasRepeated names.now) }
{
    let mut seen = HashSet::new(alloc);
    let mut repeated = HashSet::new(alloc);
    for name in names {
        if seen.contains(name) {
            repeated.insert(*name)?;
        } else {
            seen.insert(*name)?;
        }
    }
    Ok(repeated)
}

/// The names of fields, injected or not, that classes declare more than once.
pub(crate) fn shared_names(alloc: Global, classes: &[Class]) -> Result<HashSet<Name>, AllocError>
    ensures { IfOk result (spec.HasShared classes.now) }
{
    let names = names_of(alloc, classes)?;
    repeated_in(alloc, names.as_slice())
}

fn has_field(shared: &HashSet<Name>, fields: &[Field]) -> bool
    ensures { result ≡ list_any (λ f. contains nat_eq shared.now f.name) fields.now }
{
    fields.iter().any(|field| shared.contains(&field.name))
}

fn has_injected(shared: &HashSet<Name>, fields: &[InjectedField]) -> bool
    ensures { result ≡ list_any (λ f. contains nat_eq shared.now f.name) fields.now }
{
    fields.iter().any(|field| shared.contains(&field.name))
}

/// Whether a set has the name of a field of a class.
#[tactic(auto, using(crate::proofs::SharedNames::any_name))]
pub(crate) fn has_any_of(shared: &HashSet<Name>, class: &Class) -> bool
    ensures { result ≡ list_any (contains nat_eq shared.now) (spec.fields_in class.now) }
{
    has_field(shared, class.fields.as_slice()) || has_injected(shared, class.inject.as_slice())
}
