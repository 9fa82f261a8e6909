//! Which events can be fired, and how their qualifiers are written.
ghost use Rattle.std.specs.Prelude.{◌≡◌, IfOk};
ghost use Rattle.cdi_run_tables.specs.Machine as spec;

use crate::tables::RunTables;
use cdi_base::{Name, Seq, Use};
use cdi_event_tables::written_uses;
use cdi_name_check::{DeclaredNames, are_event_qualifiers};
use std::alloc::{AllocError, Global};

impl RunTables {
    /// Whether an event of a class with these qualifiers can be fired (Jakarta CDI 4.0, *Event types and qualifier types*): the class
    /// is one of the deployment that isn't abstract, each qualifier is known with the members that it gives, and none is `Default`.
    pub fn is_event(&self, class: Name, qualifiers: &[Use]) -> bool
        ensures { result ≡ (spec.machine_tables self.now).is_event class qualifiers.now }
    {
        let names = DeclaredNames::new(&self.parts.deployment, &self.index.names);
        self.index.events.classes.contains(&class) && are_event_qualifiers(&names, qualifiers)
    }

    /// The qualifiers of an event, or of an act that fires one, in the form in which entries write them, however they were given: all but
    /// `Any`, which every event has, each once, in the order of their names' texts and then of their values, and each with all the
    /// members of its type, those that aren't given as null. What isn't a qualifier of the deployment is written without members.
    pub fn written(&self, alloc: Global, qualifiers: &[Use]) -> Result<Seq<Use>, AllocError>
        ensures { IfOk result (λ written. written
            ≡ (spec.machine_tables self.now).written qualifiers.now) }
    {
        let parts = &self.parts;
        let types = &parts.tables.declared.qualifiers;
        written_uses(alloc, &parts.deployment.names, types, qualifiers)
    }
}
