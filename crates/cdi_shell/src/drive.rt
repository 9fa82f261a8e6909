//! A run of the program, from the bytes of a deployment and of its input to the bytes of its output.
ghost use Rattle.std.specs.Prelude.{◌≡◌, ◌≤◌, length, Bool, IfOk, OnOk, OnErr, IsTrue};
ghost use Rattle.cdi_prepare.specs.Scripts.{registered};
ghost use Rattle.cdi_report.specs.Reports.{problem_lines};
ghost use Rattle.cdi_run_tables.specs.Machine.{machine_tables};
ghost use Rattle.cdi_runtime.specs.Standing.{IsServable};
ghost use Rattle.cdi_steps.specs.Driving.{Drives as Runs};
ghost use Rattle.cdi_script.specs.Next.{next_of};
ghost use Rattle.cdi_base.specs.Chosen.{chosen};
ghost use Rattle.cdi_shell.specs.Drive as spec;
ghost use Rattle.cdi_lines.specs.Served.{Blames};
ghost use Rattle.cdi_shell.specs.Endings.{outcome_of};
ghost use Rattle.cdi_shell.specs.Laws.{DrivesOnce};

use crate::ending::{Ending, after_serving};
use cdi_base::{Act, Fields, Names, OrMemory, Settings};
use cdi_bodies::{AddError, Bodies, Body, Choice, Chooser, MAX_BODIES, View};
use cdi_container::{Container, Session, Unaccepted, accept};
use cdi_lines::{ServeFault, Sink, Source};
use cdi_machine::{Driver, Registered};
use cdi_prepare::{NamedScript, Prepared, prepare};
use cdi_problems::Problem;
use cdi_report::problem_lines::write_problems;
use cdi_run_tables::RunTables;
use std::alloc::{AllocError, Global};

/// Memory ran out where no container was served.
const STARVED: Ending = Ending::Fault {
    fault: ServeFault::Memory,
    halted: None,
};

/// The lines of a refusal could not be written.
const UNWRITTEN: Ending = Ending::Fault {
    fault: ServeFault::Write,
    halted: None,
};

/// Writes why a deployment is refused.
fn refuse<W: Sink>(lines: &[u8], output: &mut W) -> Ending
    ensures refuses { spec.Refuses lines.now (W.written output.old) (W.written output.new) result }
    ensures passed_on { OnOk (outcome_of result) (IsTrue (W.is_passed_on output.new)) }
    ensures blames { (source : Bool)
        → Blames (outcome_of result) source source
        (W.has_failed output.old) (W.has_failed output.new) }
{
    match output.write_through(lines) {
        Ok(()) => Ending::Refused,
        Err(_) => UNWRITTEN,
    }
}

/// Writes the problems of a deployment.
fn refuse_problems<W: Sink>(
    alloc: Global,
    names: &Names,
    problems: &[Problem],
    output: &mut W,
) -> Ending
    ensures refuses { spec.RefusesOr (problem_lines names.now problems.now)
        (W.written output.old) (W.written output.new) result }
    ensures passed_on { OnOk (outcome_of result) (IsTrue (W.is_passed_on output.new)) }
    ensures blames { (source : Bool)
        → Blames (outcome_of result) source source
        (W.has_failed output.old) (W.has_failed output.new) }
{
    match write_problems(alloc, names, problems) {
        Ok(lines) => refuse(&lines, output),
        Err(_) => STARVED,
    }
}

/// Tells the problems for which a deployment isn't accepted, if memory didn't run out.
fn refuse_unaccepted<W: Sink>(
    alloc: Global,
    unaccepted: OrMemory<Unaccepted>,
    output: &mut W,
) -> Ending
    requires { spec.IsRefusable unaccepted }
    ensures refuses { spec.RefusesUnaccepted
        unaccepted (W.written output.old) (W.written output.new) result }
    ensures passed_on { OnOk (outcome_of result) (IsTrue (W.is_passed_on output.new)) }
    ensures blames { (source : Bool)
        → Blames (outcome_of result) source source
        (W.has_failed output.old) (W.has_failed output.new) }
{
    match unaccepted {
        OrMemory::Fault(Unaccepted::Problems { names, problems }) => {
            refuse_problems(alloc, &names, problems.as_slice(), output)
        }
        OrMemory::Fault(Unaccepted::Malformed) => unreachable!(),
        OrMemory::Memory => STARVED,
    }
}

/// Starts a container and serves it up to the end of the input.
fn live<R: Source, W: Sink, D: Driver + Drop>(
    alloc: Global,
    tables: RunTables,
    driver: D,
    settings: Settings,
    slice: u32,
    input: &mut R,
    output: &mut W,
) -> Ending
    requires drives { Runs (machine_tables tables) (D.knows driver) }
    requires servable { IsServable tables }
    ensures lives { spec.Lives settings tables (D.legal driver)
        (record {
          unread = R.unread input.old;
          unread_after = R.unread input.new;
          held = W.written output.old;
          held_after = W.written output.new;
        }) result }
    ensures passed_on { OnOk (outcome_of result) (IsTrue (W.is_passed_on output.new)) }
    ensures blames { Blames (outcome_of result)
        (R.has_failed input.old) (R.has_failed input.new)
        (W.has_failed output.old) (W.has_failed output.new) }
{
    let container = Container::start(alloc, tables, driver, settings.limits);
    let mut session = Session::new(alloc, container, settings.shows_trace, u64::from(slice));
    let served = session.serve(alloc, input, output);
    after_serving(served, session.container().halted())
}

/// Registers the scripts of a deployment as bodies, each under its name unless that is taken, and runs it.
fn play_scripts<R: Source, W: Sink>(
    alloc: Global,
    prepared: Prepared,
    settings: Settings,
    slice: u32,
    input: &mut R,
    output: &mut W,
) -> Result<Ending, AllocError>
    requires few { length prepared.scripts.items ≤ MAX_BODIES }
    requires formed { spec.IsWellFormedWith (registered prepared.scripts.items) prepared.deployment }
    ensures plays { IfOk result (spec.PlaysScripts settings
        prepared.deployment (registered prepared.scripts.items)
        (record {
          unread = R.unread input.old;
          unread_after = R.unread input.new;
          held = W.written output.old;
          held_after = W.written output.new;
        })) }
    ensures silent { OnErr result ((input.new ≡ input.old) × (output.new ≡ output.old)) }
    ensures passed_on { IfOk result (λ ending.
        OnOk (outcome_of ending) (IsTrue (W.is_passed_on output.new))) }
    ensures blames { IfOk result (λ ending. Blames (outcome_of ending)
        (R.has_failed input.old) (R.has_failed input.new)
        (W.has_failed output.old) (W.has_failed output.new)) }
{
    let Prepared {
        deployment,
        scripts,
    } = prepared;
    let mut bodies = Bodies::new(alloc);
    for named in scripts {
        let NamedScript { name, script } = named;
        if bodies.find(name).is_some() {
            continue;
        }
        let shape = script.shape_of(alloc)?;
        let body: Body = Box::new(
            alloc,
            move |fields: &Fields, view: &View| -> Result<Act, AllocError>
                ensures { IfOk result (λ act. act ≡ next_of script fields.now view.now) }
            { script.next(alloc, fields, view) },
        )?;
        match bodies.add(name, shape, body) {
            Ok(_) => {}
            Err(AddError::Memory(_)) => return Err(AllocError),
            Err(AddError::Repeated(_)) => unreachable!(),
            Err(AddError::Full(_)) => unreachable!(),
        }
    }
    match accept(alloc, deployment, &bodies) {
        Ok(tables) => {
            let order = settings.order;
            let choice: Choice = Box::new(
                alloc,
                move |count: u32, _entries: u64| -> u32
                    ensures { result ≡ chosen order count }
                { order.choose(count) },
            )?;
            let chooser = Chooser::new(choice);
            let driver = Registered { bodies, chooser };
            Ok(live(alloc, tables, driver, settings, slice, input, output))
        }
        Err(unaccepted) => Ok(refuse_unaccepted(alloc, unaccepted, output)),
    }
}

/// Runs the program on a deployment: gives how it ended.
fn run<R: Source, W: Sink>(
    alloc: Global,
    deployment: &[u8],
    settings: Settings,
    slice: u32,
    input: &mut R,
    output: &mut W,
) -> Ending
    ensures drives { spec.Drives settings deployment.now
        (record {
          unread = R.unread input.old;
          unread_after = R.unread input.new;
          held = W.written output.old;
          held_after = W.written output.new;
        }) result }
    ensures passed_on { OnOk (outcome_of result) (IsTrue (W.is_passed_on output.new)) }
    ensures blames { Blames (outcome_of result)
        (R.has_failed input.old) (R.has_failed input.new)
        (W.has_failed output.old) (W.has_failed output.new) }
{
    match prepare(alloc, deployment) {
        Ok(prepared) => match play_scripts(alloc, prepared, settings, slice, input, output) {
            Ok(ending) => ending,
            Err(_) => STARVED,
        },
        Err(OrMemory::Fault(line)) => refuse(&line, output),
        Err(OrMemory::Memory) => STARVED,
    }
}

/// Runs the program from the bytes of a deployment on, and gives how it ended.
///
/// A refused deployment is told by its first fault, by the first of its scripts that is bad, or by its problems, each on
/// a line. Otherwise the scripts are the bodies, the container is started and its command lines are answered, as
/// [`Session::serve`] does, each by turns of so many entries, of which 0 counts as 1, and the boot at once: the lines that stand written are those of a run of the machine for the lines that were read, in which
/// each body does what its script does next. Where no read or write fails and memory does not run out, they are a
/// function of the settings, the deployment and the input, whatever the turns are, also where that is too long. All is passed on before each read,
/// and where the run ends without a fault. A read, a write or a flush that fails is never passed over: the run ends then
/// with a fault, whose status is 3.
pub fn drive<R: Source, W: Sink>(
    alloc: Global,
    deployment: &[u8],
    settings: Settings,
    slice: u32,
    input: &mut R,
    output: &mut W,
) -> Ending
    ensures { DrivesOnce settings deployment.now
        (record {
          unread = R.unread input.old;
          unread_after = R.unread input.new;
          held = W.written output.old;
          held_after = W.written output.new;
        })
        (R.has_failed input.old) (R.has_failed input.new)
        (W.has_failed output.old) (W.has_failed output.new) (W.is_passed_on output.new) result }
{
    run(alloc, deployment, settings, slice, input, output)
}
