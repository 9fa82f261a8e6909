//! The functions that own the tables of a deployment. The proof of each drops all tables, so that there are few.
ghost use Rattle.std.specs.Prelude.{IfOk};
ghost use Rattle.cdi_run_tables.specs.Machine.{machine_tables};
ghost use Rattle.cdi_runtime.specs.Standing.{IsServable};
ghost use Rattle.cdi_steps.specs.Driving.{Drives};

use crate::jobs::{Told, answers};
use cdi_base::{Limits, OrMemory};
use cdi_container::Unaccepted;
use cdi_machine::Driver;
use cdi_problems::Problem;
use cdi_run_tables::RunTables;
use cdi_runtime::Runtime;
use cdi_world::World;
use std::alloc::{AllocError, Global};

/// Which of several candidates is picked.
#[derive(Clone, Copy)]
pub(crate) enum Order {
    First,
    Last,
}

/// What is asked of a runtime: its limits, which candidates are picked, and the lines.
#[derive(Clone, Copy)]
pub(crate) struct Asking<'a> {
    pub(crate) limits: Limits,
    pub(crate) order: Order,
    pub(crate) input: &'a str,
}

/// How many names came back, and a line for the kind of each problem.
fn problem_lines(alloc: Global, names: usize, problems: &[Problem]) -> Result<String, AllocError> {
    let mut text = format!(in alloc; "{names} names\n")?;
    for problem in problems {
        let kind = problem.kind;
        writeln!(text, "{kind:?}")?;
    }
    Ok(text)
}

/// Why a deployment isn't accepted.
fn refusal_lines(alloc: Global, unaccepted: &OrMemory<Unaccepted>) -> Result<String, AllocError> {
    match unaccepted {
        OrMemory::Fault(Unaccepted::Problems { names, problems }) => {
            problem_lines(alloc, names.len(), problems.as_slice())
        }
        OrMemory::Fault(Unaccepted::Malformed) => String::from_str(alloc, "malformed\n"),
        OrMemory::Memory => Err(AllocError),
    }
}

/// All is done again in slices of so many entries.
const SLICES: [u64; 4] = [1, 2, 3, 1_000];

/// Nothing has been done with a runtime any more.
fn start_anew<D: Driver>(runtime: &mut Runtime<D>, limits: Limits) {
    runtime.world = World::new(runtime.alloc, limits);
}

/// What a runtime answers that nothing has been done with. In slices, of any length, it answers the same and writes the same entries;
/// else what it answers in the first slices that are told otherwise.
fn answers_by<D: Driver + Drop>(
    alloc: Global,
    tables: RunTables,
    driver: D,
    asking: Asking,
) -> Result<String, AllocError>
    requires drives { Drives (machine_tables tables) (D.knows driver) }
    requires servable { IsServable tables }
{
    let mut runtime = Runtime::new(alloc, tables, driver, asking.limits);
    let told = answers(alloc, &mut runtime, None, asking.input)?;
    for slice in SLICES {
        start_anew(&mut runtime, asking.limits);
        let sliced = answers(alloc, &mut runtime, Some(slice), asking.input)?;
        if sliced.text != told.text || sliced.entries != told.entries {
            return format!(in alloc; "in slices of {slice}:\n{}", sliced.text);
        }
    }
    let Told { text, .. } = told;
    Ok(text)
}

/// What is told of a deployment that was looked at with bodies, which this driver has: what its runtime answers, or why it isn't
/// accepted.
pub(crate) fn told_by<D: Driver + Drop>(
    alloc: Global,
    accepted: Result<RunTables, OrMemory<Unaccepted>>,
    driver: D,
    asking: Asking,
) -> Result<String, AllocError>
    requires drives { IfOk accepted (λ tables.
        Drives (machine_tables tables) (D.knows driver)) }
    requires servable { IfOk accepted IsServable }
{
    match accepted {
        Ok(tables) => answers_by(alloc, tables, driver, asking),
        Err(unaccepted) => refusal_lines(alloc, &unaccepted),
    }
}
