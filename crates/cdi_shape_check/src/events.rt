//! Events that a body may fire, and exceptions that it may throw.
ghost use Rattle.std.specs.Prelude.{◌≡◌, not};
ghost use Rattle.std.specs.List.{list_any};
ghost use Rattle.std.specs.Option.{option_copied};
ghost use Rattle.cdi_shape_check.specs.Application.{application_of};
ghost use Rattle.cdi_body_check.specs.WrittenNames as spec;

use cdi_base::{BuiltIn, Name};
use cdi_bodies::{FiredEvent, Shape};
use cdi_body_check::DeclaredExceptions;
use cdi_deployment::Class;
use cdi_live::DeploymentTables;
use cdi_name_check::are_event_qualifiers;

/// Whether there are instances of a class: it is declared, and not abstract.
fn is_concrete(class: Option<&Class>) -> bool
    ensures { result ≡ spec.is_concrete (option_copied class.entry) }
{
    match class {
        Some(class) => !class.is_abstract,
        None => false,
    }
}

/// Whether an event's class is one of the deployment that isn't abstract, and its qualifiers are known.
fn is_event(application: &DeploymentTables<'_>, event: &FiredEvent) -> bool
    ensures { result ≡ spec.is_event (application_of application.now).deployment event.now }
{
    is_concrete(application.class(event.class))
        && are_event_qualifiers(application.names, event.qualifiers.as_slice())
}

/// Whether an exception is a built-in one.
fn is_built_in_exception(name: Name) -> bool
    ensures { result ≡ spec.is_built_in_exception name }
{
    BuiltIn::ContextNotActiveException.name() == name
        || BuiltIn::CreationException.name() == name
        || BuiltIn::IllegalProductException.name() == name
        || BuiltIn::IllegalStateException.name() == name
        || BuiltIn::IllegalArgumentException.name() == name
        || BuiltIn::NullPointerException.name() == name
        || BuiltIn::ObserverException.name() == name
        || BuiltIn::UnsatisfiedResolutionException.name() == name
        || BuiltIn::AmbiguousResolutionException.name() == name
}

fn is_exception(exceptions: &DeclaredExceptions<'_>, name: Name) -> bool
    ensures { result ≡ spec.is_exception_among exceptions.now name }
{
    is_built_in_exception(name) || exceptions.is_declared(name)
}

/// Whether a shape has an event with an unknown class or qualifier.
pub(crate) fn lacks_event(application: &DeploymentTables<'_>, shape: &Shape) -> bool
    ensures { result ≡ list_any
        (λ e. not (spec.is_event (application_of application.now).deployment e)) shape.now.fires }
{
    shape
        .fires
        .iter()
        .any(|event| !is_event(application, event))
}

/// Whether a shape has an exception that is none of these and no built-in one.
pub(crate) fn lacks_exception(exceptions: &DeclaredExceptions<'_>, shape: &Shape) -> bool
    ensures { result ≡ list_any
        (λ x. not (spec.is_exception_among exceptions.now x)) shape.now.throws }
{
    shape
        .throws
        .iter()
        .any(|name| !is_exception(exceptions, *name))
}
