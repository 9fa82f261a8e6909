//! What a container takes for granted of a deployment.
ghost use Rattle.std.specs.Prelude.{◌≡◌};
ghost use Rattle.std.specs.List.{list_all};
ghost use Rattle.cdi_run_tables.specs.Texts as texts;
ghost use Rattle.cdi_run_tables.specs.WellFormed as spec;

use crate::tables::RunTables;
use cdi_base::{BuiltIn, Name, Names};
use cdi_deployment::{Deployment, Exception};

fn has_text(names: &Names, name: Name) -> bool
    ensures { result ≡ texts.has_text names.now name }
{
    names.get(name).is_some()
}

fn have_texts(names: &Names, exceptions: &[Exception]) -> bool
    ensures { result ≡ list_all (λ x. texts.has_text names.now x.name) exceptions.now }
{
    exceptions
        .iter()
        .all(|exception| has_text(names, exception.name))
}

fn has_texts(deployment: &Deployment) -> bool
    ensures { result ≡ texts.has_texts deployment.now }
{
    let names = &deployment.names;
    has_text(names, BuiltIn::AmbiguousResolutionException.name())
        && have_texts(names, deployment.exceptions.as_slice())
}

impl RunTables {
    /// Whether a deployment has what a container takes for granted, as every one that was read has it: each declared exception and each
    /// built-in name has a text, and each bean, step, interceptor and injected field has a number.
    pub fn is_well_formed(&self) -> bool
        ensures { result ≡ spec.is_well_formed self.now }
    {
        has_texts(&self.parts.deployment) && self.is_numbered() && self.is_small()
    }
}
