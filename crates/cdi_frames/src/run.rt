//! The engine: a loop over its steps, which alone writes entries, and can stop before each of them.
ghost use Rattle.std.specs.Prelude.{◌≡◌, ◌≤◌, ◌<◌, ◌+◌, ◌∷◌, length, false, IfOk, IfErr, OnErr, OnOk, IsTrue};
ghost use Rattle.cdi_steps.specs.Meanings.{first};
ghost use Rattle.cdi_steps.specs.Leads.{Ran};
ghost use Rattle.cdi_steps.specs.Known.{AllInvoked, Known};
ghost use Rattle.cdi_steps.specs.Driving.{Drives, HasFailed, Narrows};
ghost use Rattle.cdi_frames.specs.Stacks.{program_of, KeepsMeaning, TurnsTo, AddsAtMost, KeepsCount, KnownStack, KnownTurn};
ghost use Rattle.cdi_frames.specs.declared.stack.Pending.{Pending};
ghost use Rattle.cdi_frames.specs.Hearing.{Noted, ToldIf, HearsTurn, HearsOutcome, HasFailedAt};

use crate::passing::passes;
use crate::resume::resume;
use crate::stack::{Stack, Turn};
use crate::step::{bodies, commands, entries, start, step};
use cdi_base::{Cause, Entry};
use cdi_calls::references;
use cdi_host::{Contents, Stack as Waiting, Tables};
use cdi_machine::{Driver, Failure};
use cdi_steps::ends::cut;
use cdi_steps::task::{Call, Continuation, Frame, Next, Task};
use cdi_steps::{Outcome, chains, creation, destruction, obtaining};
use std::alloc::AllocError;

/// Writes an entry of which the driver is told, if the command may have one more. An error comes from the driver, or memory is
/// wanting; on an error the world is the same.
#[tactic(auto, using(cdi_steps::proofs::Driving::driving))]
fn write<D: Driver, W: Contents>(
    driver: &mut D,
    world: &mut W,
    entry: Entry,
) -> Result<bool, Failure>
    ensures noted { IfOk result (λ written. Noted entry
        (W.world world.old) written (W.world world.new)) }
    ensures told { IfOk result (λ written. ToldIf written entry
        (D.heard driver.old) (D.heard driver.new)) }
    ensures kept { OnErr result (W.world world.new ≡ W.world world.old) }
    ensures failed { IfErr result (HasFailed (D.may_end driver.old)
        (D.heard driver.old) (D.heard driver.new) (D.ended driver.new)) }
    ensures narrows { Narrows (D.legal driver.old) (D.legal driver.new)
        (D.may_end driver.old) (D.may_end driver.new) (D.knows driver.old) (D.knows driver.new) }
{
    if !world.has_room() {
        drop(entry);
        return Ok(false);
    }
    driver.tell(&entry, world.entries())?;
    world.write(entry)?;
    Ok(true)
}

/// The run is cut before this, since the entry in front of it had no room.
fn cut_before(_continuation: Continuation) -> Next
    ensures { result ≡ Next.Finished (Outcome.Cut Cause.Ticks) }
{
    cut(Cause::Ticks)
}

/// Adds a frame that waits from now on. On an error nothing changes.
fn wait(frames: &mut Waiting<Frame>, frame: Frame) -> Result<(), AllocError>
    ensures ok { OnOk result (frames.new ≡ frame ∷ frames.old) }
    ensures err { OnErr result (frames.new ≡ frames.old) }
{
    frames.push(frame)?;
    Ok(())
}

/// Whether a turn that began behind so many entries may write one more.
fn has_room<W: Contents>(world: &W, first: u64, most: u64) -> bool
    requires low { first ≤ length (W.world world.now).trace }
    ensures room { IsTrue result → length (W.world world.now).trace < first + most }
    ensures spent { result ≡ false → first + most ≤ length (W.world world.now).trace }
{
    world.entries() - first < most
}

/// Goes on until one entry more than so many is due, or the run is over; a turn of 0 goes on to the first entry. If it is running,
/// exactly so many were written, and the steps from the one stack to the other are those of the machine; if it is finished, what the
/// stack meant has run to this outcome. On an error, memory ran out or the driver gave nothing, and what was written is what
/// such a run writes first. No turn writes more.
///
/// What a step comes to stays where it is until the next one takes it, and the steps of calls, creations and destructions are
/// picked here: a stack that is handed on costs more than most steps, and so does a function that picks among all of them.
pub fn turn<T: Tables, D: Driver, W: Contents>(
    tables: &T,
    driver: &mut D,
    world: &mut W,
    stack: Stack,
    most: u64,
) -> Result<Turn, Failure>
    requires drives { Drives (T.tables tables.now) (D.knows driver.old) }
    requires known { KnownStack (T.tables tables.now) (W.world world.old) stack }
    ensures turned { TurnsTo (T.tables tables.now) (D.legal driver.old) stack
        (W.world world.old) result (W.world world.new) }
    ensures counted { IfOk result (λ turn. KeepsCount most
        (W.world world.old) turn (W.world world.new)) }
    ensures grown { AddsAtMost most (W.world world.old) (W.world world.new) }
    ensures known { IfOk result (KnownTurn (T.tables tables.now) (W.world world.new)) }
    ensures invoked { AllInvoked (T.tables tables.now) (W.world world.new) }
    ensures hears { IfOk result (λ turn. HearsTurn (D.heard driver.old) stack (W.world world.old)
        turn (D.heard driver.new) (W.world world.new)) }
    ensures failed { IfErr result (HasFailedAt (D.may_end driver.old)
        (D.heard driver.old) stack.pending (W.world world.old)
        (D.heard driver.new) (D.ended driver.new) (W.world world.new)) }
    ensures narrows { Narrows (D.legal driver.old) (D.legal driver.new)
        (D.may_end driver.old) (D.may_end driver.new) (D.knows driver.old) (D.knows driver.new) }
{
    let first = world.entries();
    let Stack { frames, pending } = stack;
    let mut frames = frames;
    let mut next = pending.ahead();
    'steps: loop {
        match next {
            Next::Goes(task) => match task {
                Task::Start(call) => match call {
                    Call::Rest(chain) => next = chains::rest(tables, world, chain)?,
                    Call::Body(running) => next = bodies::begin(tables, world, running),
                    Call::Acts(running) => next = bodies::act(tables, driver, world, running)?,
                    Call::Create { bean, owner } => {
                        next = creation::create(tables, world, bean, owner)?
                    }
                    Call::Destroy { number } => next = destruction::destroy(tables, world, number),
                    Call::Release { number } => {
                        next = destruction::release(tables, driver, world, number)?
                    }
                    call => next = start(tables, driver, world, call)?,
                },
                Task::Creating {
                    number,
                    component,
                    left,
                } => next = creation::creating(tables, world, number, component, left)?,
                Task::Through(used) => next = references::through(tables, world, used)?,
                Task::Begin(job) => next = commands::begin(tables, world, job)?,
                Task::Using(used) => next = obtaining::using(tables, world, used)?,
                task => next = step(tables, driver, world, task)?,
            },
            Next::Needs(task, frame) => {
                wait(&mut frames, frame)?;
                next = Next::Goes(task);
            }
            Next::Finished(outcome) => match frames.take() {
                Some(frame) => {
                    if passes(tables, world, &frame, &outcome) {
                        drop(frame);
                        next = Next::Finished(outcome);
                    } else {
                        next = resume(tables, world, frame, outcome)?;
                    }
                }
                None => return Ok(Turn::Finished(outcome)),
            },
            Next::Writes(entry, continuation) => {
                if !has_room(world, first, most) {
                    return Ok(Turn::Running(Stack::due(frames, entry, continuation)));
                }
                if write(driver, world, entry)? {
                    match continuation {
                        Continuation::Starting(running) => {
                            next = bodies::start(tables, world, running)?
                        }
                        Continuation::Performing(performance) => {
                            next = bodies::perform(tables, world, performance)?
                        }
                        continuation => next = entries::go_on(tables, world, continuation)?,
                    }
                } else {
                    next = cut_before(continuation);
                }
            }
        }
    }
}

/// Goes on from a stack to the end of its run.
fn finish<T: Tables, D: Driver, W: Contents>(
    tables: &T,
    driver: &mut D,
    world: &mut W,
    stack: Stack,
) -> Result<Outcome, Failure>
    requires drives { Drives (T.tables tables.now) (D.knows driver.old) }
    requires known { KnownStack (T.tables tables.now) (W.world world.old) stack }
    ensures ran { Ran (T.tables tables.now) (D.legal driver.old) (program_of stack)
        (W.world world.old) result (W.world world.new) }
    ensures invoked { AllInvoked (T.tables tables.now) (W.world world.new) }
    ensures hears { IfOk result (λ outcome. HearsTurn (D.heard driver.old) stack (W.world world.old)
        (Turn.Finished outcome) (D.heard driver.new) (W.world world.new)) }
    ensures failed { IfErr result (HasFailedAt (D.may_end driver.old)
        (D.heard driver.old) stack.pending (W.world world.old)
        (D.heard driver.new) (D.ended driver.new) (W.world world.new)) }
    ensures narrows { Narrows (D.legal driver.old) (D.legal driver.new)
        (D.may_end driver.old) (D.may_end driver.new) (D.knows driver.old) (D.knows driver.new) }
{
    let mut left = stack;
    'turns: loop {
        match turn(tables, driver, world, left, u64::MAX)? {
            Turn::Finished(outcome) => return Ok(outcome),
            Turn::Running(stack) => left = stack,
        }
    }
}

/// What a stack meant follows from what it means after its steps, with memory and short of it.
pub fn law_steps<T: Tables, D: Driver>(_tables: &T, _driver: &D)
    ensures whole { KeepsMeaning (T.tables _tables.now) (D.legal _driver.now) ⊥ }
    ensures short { KeepsMeaning (T.tables _tables.now) (D.legal _driver.now) (Unit {0}) }
{}

/// Carries out any task, on a stack of its own. The world is then that of a run of the machine, in which the bodies give and
/// the chooser picks what was legal. If memory ran out, or the driver had nothing to give, what was written is what
/// such a run writes first.
pub fn run<T: Tables, D: Driver, W: Contents>(
    tables: &T,
    driver: &mut D,
    world: &mut W,
    task: Task,
) -> Result<Outcome, Failure>
    requires drives { Drives (T.tables tables.now) (D.knows driver.old) }
    requires invoked { AllInvoked (T.tables tables.now) (W.world world.old) }
    requires known { Known (T.tables tables.now) (W.world world.old) task }
    ensures ran { Ran (T.tables tables.now) (D.legal driver.old) (first task)
        (W.world world.old) result (W.world world.new) }
    ensures invoked { AllInvoked (T.tables tables.now) (W.world world.new) }
    ensures hears { IfOk result (λ outcome. HearsOutcome (D.heard driver.old) (W.world world.old)
        outcome (D.heard driver.new) (W.world world.new)) }
    ensures failed { IfErr result (HasFailedAt (D.may_end driver.old)
        (D.heard driver.old) (Pending.Does task) (W.world world.old)
        (D.heard driver.new) (D.ended driver.new) (W.world world.new)) }
    ensures narrows { Narrows (D.legal driver.old) (D.legal driver.new)
        (D.may_end driver.old) (D.may_end driver.new) (D.knows driver.old) (D.knows driver.new) }
{
    let stack = Stack::start(world.alloc(), task);
    finish(tables, driver, world, stack)
}
