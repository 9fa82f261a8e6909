//! What is asked of a managed bean, by its plan.
ghost use Rattle.std.specs.Prelude.{◌≡◌, option_and_then, IfOk};
ghost use Rattle.cdi_run_tables.specs.Machine.{planned_at};
ghost use Rattle.cdi_run_tables.specs.Managed as spec;

use crate::tables::RunTables;
use cdi_base::Fields;
use std::alloc::{AllocError, Global};

impl RunTables {
    /// The fields of a new instance of the bean with an index, each with its first value; a product has none, and so has a bean that
    /// isn't enabled.
    pub fn first_fields(&self, alloc: Global, bean: usize) -> Result<Fields, AllocError>
        ensures { IfOk result (λ fields. fields ≡ spec.fields_of
            (option_and_then spec.managed_plan (planned_at self.now bean))) }
    {
        if self.is_enabled(bean) {
            return self.parts.beans.first_fields(alloc, bean);
        }
        Ok(Fields::new(alloc))
    }
}
