//! Which beans and interceptors need themselves.
ghost use Rattle.std.specs.Prelude.{◌≡◌, ◌↔◌, ◌<◌, ℕ, IsTrue, IfOk};
ghost use Rattle.cdi_live.specs.Cycles as spec;
ghost use Rattle.cdi_live.specs.Graphs.{HasRows};
ghost use Rattle.cdi_live.specs.Settings.{setting_of, counts_of};

use crate::deployment_tables::DeploymentTables;
use cdi_base::Seq;
use cdi_paths::Cycles;
use std::alloc::{AllocError, Global};

/// For each bean of the list, and for each enabled interceptor, whether it needs an instance of itself, directly or through others
/// (Jakarta CDI 4.0, *Dependent pseudo-scope*).
#[derive(Drop)]
pub(crate) struct NeedyFlags {
    pub(crate) beans: Seq<bool>,
    pub(crate) interceptors: Seq<bool>,
}

/// Which of the beans lie on a cycle of the graph.
fn bean_flags(
    alloc: Global,
    tables: &DeploymentTables<'_>,
    cycles: &Cycles,
) -> Result<Seq<bool>, AllocError>
    requires { HasRows (setting_of tables.now) (counts_of tables.now)
        (counts_of tables.now).interceptors cycles.now }
    ensures { IfOk result (λ flags. (i : ℕ)
        → IsTrue (spec.flag flags i) ↔ spec.BeanNeedsItself (setting_of tables.now) i) }
{
    let mut flags = Seq::empty(alloc);
    for index in 0..tables.counts().beans {
        flags.push(cycles.is_on_cycle(index))?;
    }
    Ok(flags)
}

/// Which of the enabled interceptors lie on a cycle of the graph.
fn interceptor_flags(
    alloc: Global,
    tables: &DeploymentTables<'_>,
    cycles: &Cycles,
) -> Result<Seq<bool>, AllocError>
    requires { HasRows (setting_of tables.now) (counts_of tables.now)
        (counts_of tables.now).interceptors cycles.now }
    ensures { IfOk result (λ flags. (k : ℕ)
        → IsTrue (spec.flag flags k) ↔ spec.InterceptorNeedsItself (setting_of tables.now) k) }
{
    let counts = tables.counts();
    let mut flags = Seq::empty(alloc);
    for place in 0..counts.interceptors {
        flags.push(cycles.is_on_cycle(counts.beans + place))?;
    }
    Ok(flags)
}

impl NeedyFlags {
    /// What the tables tell. Once the rows of the graph are made, it takes about as many steps as that has nodes and edges.
    pub(crate) fn build(
        alloc: Global,
        tables: &DeploymentTables<'_>,
    ) -> Result<NeedyFlags, AllocError>
        ensures { IfOk result (spec.AreNeedy (setting_of tables.now)) }
    {
        let rows = tables.rows(alloc)?;
        let cycles = Cycles::build(alloc, rows)?;
        Ok(NeedyFlags {
            beans: bean_flags(alloc, tables, &cycles)?,
            interceptors: interceptor_flags(alloc, tables, &cycles)?,
        })
    }
}
