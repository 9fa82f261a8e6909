//! Lookups that a body may make.
ghost use Rattle.std.specs.Prelude.{◌≡◌, not};
ghost use Rattle.std.specs.List.{list_any};
ghost use Rattle.cdi_shape_check.specs.Application.{application_of};
ghost use Rattle.cdi_body_check.specs.WrittenNames as spec;

use cdi_bodies::{Lookup, Shape};
use cdi_live::DeploymentTables;
use cdi_name_check::are_qualifiers;

/// Whether the type and the qualifiers of a lookup are known.
fn is_lookup(application: &DeploymentTables<'_>, lookup: &Lookup) -> bool
    ensures { result ≡ spec.is_lookup (application_of application.now).deployment lookup.now }
{
    application.names.is_type(lookup.bean_type)
        && are_qualifiers(application.names, lookup.qualifiers.as_slice())
}

/// Whether a shape has a lookup with an unknown type or qualifier.
pub(crate) fn lacks_lookup(application: &DeploymentTables<'_>, shape: &Shape) -> bool
    ensures { result ≡ list_any
        (λ l. not (spec.is_lookup (application_of application.now).deployment l))
        shape.now.lookups }
{
    shape
        .lookups
        .iter()
        .any(|lookup| !is_lookup(application, lookup))
}
