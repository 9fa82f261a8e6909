//! What bodies look up.
ghost use Rattle.std.specs.Prelude.{◌≡◌, option_map};
ghost use Rattle.cdi_run_tables.specs.Machine as spec;

use crate::tables::RunTables;
use cdi_bodies::{BodyId, Lookup};

impl RunTables {
    /// What the lookup of a body at an index requires, as it was written (Jakarta CDI 4.0, *Programmatic lookup*); `None` if the body
    /// has no such lookup.
    pub fn lookup(&self, body: BodyId, index: usize) -> Option<&Lookup>
        ensures { option_map (λ l. spec.asked_by_lookup l.now) result
            ≡ (spec.machine_tables self.now).lookup body index }
    {
        let lookups = self.parts.lookups.get(body.number())?;
        lookups.get(index)
    }
}
