//! The exceptions of a deployment by their names.
ghost use Rattle.std.specs.Prelude.{◌≡◌, IfOk};
ghost use Rattle.cdi_body_check.specs.Exceptions as spec;
ghost use Rattle.cdi_name_check.specs.NameSets.{HasNames};

use cdi_base::Name;
use cdi_deployment::Exception;
use std::alloc::{AllocError, Global};
use std::collections::HashSet;
use std::marker::Model;

/// The exceptions that a deployment declares, found by their names in constant time. Contracts see their list.
#[derive(Drop)]
pub struct DeclaredExceptions<'a> {
    exceptions: &'a [Exception],
    names: HashSet<Name>,
    checked: HashSet<Name>,
}

impl<'a> Model for DeclaredExceptions<'a> {
    ghost use Rattle.std.specs.Prelude.{List};
    ghost use Rattle.cdi_body_check.specs.Exceptions.{is_declared, is_checked};
    ghost use Rattle.cdi_deployment.specs.declared.deployment.Exception.{Exception};
    ghost use Rattle.cdi_name_check.specs.NameSets.{HasNames};

    ghost Value = { List Exception };

    ghost view = { λ t. t.exceptions.now };

    ghost invariant = { λ t. HasNames (is_declared t.exceptions.now) t.names
        × HasNames (is_checked t.exceptions.now) t.checked };
}

fn names_of(alloc: Global, exceptions: &[Exception]) -> Result<HashSet<Name>, AllocError>
    ensures { IfOk result (HasNames (spec.is_declared exceptions.now)) }
{
    let mut set = HashSet::new(alloc);
    for exception in exceptions {
        set.insert(exception.name)?;
    }
    Ok(set)
}

fn checked_of(alloc: Global, exceptions: &[Exception]) -> Result<HashSet<Name>, AllocError>
    ensures { IfOk result (HasNames (spec.is_checked exceptions.now)) }
{
    let mut set = HashSet::new(alloc);
    for exception in exceptions {
        if exception.checked {
            set.insert(exception.name)?;
        }
    }
    Ok(set)
}

impl<'a> DeclaredExceptions<'a> {
    /// The exceptions of a deployment.
    pub fn build(
        alloc: Global,
        exceptions: &'a [Exception],
    ) -> Result<DeclaredExceptions<'a>, AllocError>
        ensures { IfOk result (λ declared. declared ≡ exceptions.now) }
    {
        let names = names_of(alloc, exceptions)?;
        let checked = checked_of(alloc, exceptions)?;
        Ok(DeclaredExceptions {
            exceptions,
            names,
            checked,
        })
    }

    /// Whether an exception is declared.
    pub fn is_declared(&self, name: Name) -> bool
        ensures { result ≡ spec.is_declared self.now name }
    {
        self.names.contains(&name)
    }

    /// Whether an exception is declared checked.
    pub fn is_checked(&self, name: Name) -> bool
        ensures { result ≡ spec.is_checked self.now name }
    {
        self.checked.contains(&name)
    }
}
