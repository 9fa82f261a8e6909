//! The container: it carries out commands, one after the other.
ghost use Rattle.std.specs.Prelude.{◌≡◌, [], None, Some, IfOk, OnOk, length, map};
ghost use Rattle.std.specs.Option.{is_some};
ghost use Rattle.cdi_base.specs.Maps.{at};
ghost use Rattle.cdi_machine.specs.Commands.{task};
ghost use Rattle.cdi_machine.specs.Container.{refusal as machine_refusal};
ghost use Rattle.cdi_machine.specs.World.{at_begin};
ghost use Rattle.cdi_run_tables.specs.Machine.{machine_tables};
ghost use Rattle.cdi_runtime.specs.Standing.{IsServable};
ghost use Rattle.cdi_frames.specs.Stacks.{AddsAtMost, KeepsCount, KnownStack, KnownTurn, TurnsTo};
ghost use Rattle.cdi_steps.specs.Driving.{Drives};
ghost use Rattle.cdi_steps.specs.Words.{command_of, outcome_of};
ghost use Rattle.cdi_steps.specs.Known.{JobTellsRightly, KnownJob};
ghost use Rattle.cdi_container.specs.Standing as spec;
ghost use Rattle.cdi_container.specs.States.{AnswersCommand, CarriesOut, after_refusal, machine_state};
ghost use Rattle.cdi_container.specs.States.{cause_of, refusal_in_state, without_memory};
ghost use Rattle.cdi_container.specs.Replies.{reply_of};
ghost use Rattle.cdi_container.specs.Turns.{AdmitsCommand, BeginsCommand, CanBegin, IsLeftOf};
ghost use Rattle.cdi_container.specs.Turns.{KeepsOn, KnownLeft, WritesMost};
ghost use Rattle.cdi_container.specs.Turns.{busy_refusal, left_in, stack_of, turned_of};
ghost use Rattle.cdi_base.specs.declared.reply.Reply.TheVariants.{Halted, Refused};

use crate::asked::{job_for, text_of};
use crate::left::{Left, Progress, Unadmitted};
use crate::reply::{asks_for_live, cause, has_value, reply_of};
use cdi_base::{Cause, Command, Entry, Limits, Names, Refusal, Reply, Seq};
use cdi_frames::run::{run, turn};
use cdi_frames::stack::{Stack, Turn};
use cdi_machine::{Driver, Failure};
use cdi_run_tables::RunTables;
use cdi_runtime::Runtime;
use cdi_steps::task::Task;
use cdi_steps::{Job, Outcome};
use std::alloc::Global;
use std::marker::Model;

/// A container: a deployment with what drives its bodies, and what the commands so far have left.
pub struct Container<D: Driver> {
    runtime: Runtime<D>,
    /// Why it takes no further command, if it doesn't.
    halted: Option<Cause>,
    /// What its start was answered.
    booted: Reply,
}

/// In one call, so that the proof of each function that owns a container has one step here, and not one for each of its parts.
impl<D: Driver + Drop> Drop for Container<D> {
    fn drop(self) {
        let Self {
            runtime: _runtime,
            halted: _halted,
            booted: _booted,
        } = self;
    }
}

impl<D: Driver> Model for Container<D> {
    ghost use Rattle.std.specs.Coded.{codes};
    ghost use Rattle.cdi_run_tables.specs.contracts.tables.RunTables as run_tables;
    ghost use Rattle.cdi_container.specs.Standing.{ContainerParts};

    ghost Value = { ContainerParts D };

    ghost coded = { Prim.hlevel (codes, run_tables.the_row.coded) };

    ghost view = { λ c. record { runtime = c.runtime; halted = c.halted; booted = c.booted } };
}

/// A job begins, with a trace of its own: what is to be done for it.
fn begun<D: Driver>(runtime: &mut Runtime<D>, job: Job) -> Stack
    requires { KnownJob (spec.tables_in runtime.old) runtime.old.world job }
    ensures stack { result ≡ stack_of job }
    ensures known { KnownStack (spec.tables_in runtime.new) runtime.new.world result }
    ensures begins { runtime.new ≡ record runtime.old { world = at_begin runtime.old.world } }
{
    runtime.begin();
    Stack::start(runtime.alloc, Task::Begin(job))
}

/// Goes on with a stack, until one entry more than so many is due or it is over.
fn turn_of<D: Driver>(runtime: &mut Runtime<D>, stack: Stack, most: u64) -> Result<Turn, Failure>
    requires { KnownStack (spec.tables_in runtime.old) runtime.old.world stack }
    ensures turned { TurnsTo (spec.tables_in runtime.old) (D.legal runtime.old.driver) stack
        runtime.old.world result runtime.new.world }
    ensures counted { IfOk result (λ turn. KeepsCount most
        runtime.old.world turn runtime.new.world) }
    ensures grown { AddsAtMost most runtime.old.world runtime.new.world }
    ensures known { IfOk result (KnownTurn (spec.tables_in runtime.new) runtime.new.world) }
    ensures keeps { spec.KeepsParts
        (D.legal runtime.old.driver) (D.legal runtime.new.driver) runtime.old runtime.new }
{
    turn(
        &runtime.tables,
        &mut runtime.driver,
        &mut runtime.world,
        stack,
        most,
    )
}

/// Carries a job out, with a trace of its own. It is cut if memory runs out, and a driver that ends cuts it in the same way.
fn carry_out<D: Driver>(runtime: &mut Runtime<D>, job: Job) -> Outcome
    requires { KnownJob (spec.tables_in runtime.old) runtime.old.world job }
    ensures carries { CarriesOut
        (spec.tables_in runtime.old) (D.legal runtime.old.driver) (Unit {0})
        (task (command_of job)) (at_begin runtime.old.world) (outcome_of result) runtime.new.world }
    ensures keeps { spec.KeepsParts
        (D.legal runtime.old.driver) (D.legal runtime.new.driver) runtime.old runtime.new }
{
    runtime.begin();
    let task = Task::Begin(job);
    match run(
        &runtime.tables,
        &mut runtime.driver,
        &mut runtime.world,
        task,
    ) {
        Ok(outcome) => outcome,
        Err(_) => Outcome::Cut(Cause::Memory),
    }
}

impl<D: Driver> Container<D> {
    ghost use Rattle.cdi_machine.specs.Commands.{Command as MachineCommand};
    ghost use Rattle.cdi_container.specs.Commands.{machine_command};
    ghost use Rattle.cdi_container.specs.Replies.{IsToldByEnd};

    /// Starts a container (Jakarta CDI 4.0, *Container lifecycle events*). A start that is cut gives a container that has
    /// halted. The deployment has to be served, and the driver has to have each body that can come to run: so it is with the
    /// tables and the bodies of a deployment that was [accepted](crate::accept).
    pub fn start(alloc: Global, tables: RunTables, driver: D, limits: Limits) -> Container<D>
        requires drives { Drives (machine_tables tables) (D.knows driver) }
        requires servable { IsServable tables }
        ensures { spec.IsStarted (D.legal driver) (D.legal result.runtime.driver)
            tables limits.ticks limits.depth result }
    {
        let mut runtime = Runtime::new(alloc, tables, driver, limits);
        let outcome = carry_out(&mut runtime, Job::Boot);
        Container {
            runtime,
            halted: cause(&outcome),
            booted: reply_of(false, outcome),
        }
    }

    /// What it allocates with.
    pub(crate) fn alloc(&self) -> Global {
        self.runtime.alloc
    }

    /// The names of the deployment.
    pub fn names(&self) -> &Names
        ensures { result.now ≡ spec.names_of self.now }
    {
        &self.runtime.tables().deployment().names
    }

    /// What the start was answered.
    pub fn boot_reply(&self) -> &Reply
        ensures { result.now ≡ self.now.booted }
    {
        &self.booted
    }

    /// What the command before did, from its begin on: its entries, of the start if there was no command yet.
    pub fn trace(&self) -> &[Entry]
        ensures { result.now ≡ (spec.state_of self.now).world.trace }
    {
        self.runtime.world().trace()
    }

    /// How many instances are live: made, and neither dropped nor gone.
    pub fn live_count(&self) -> usize
        ensures { result ≡ length (spec.state_of self.now).world.instances }
    {
        self.runtime.world().live_count()
    }

    /// Whether the instance with a number is live.
    pub fn live(&self, number: u32) -> bool
        ensures { result ≡ is_some (at (spec.state_of self.now).world.instances number) }
    {
        self.runtime.world().is_live(number)
    }

    /// Why the container takes no further command, if a cut has halted it.
    pub fn halted(&self) -> Option<Cause>
        ensures { result ≡ self.now.halted }
    {
        self.halted
    }

    /// The trace of the command before is forgotten, and all else stays as it was.
    fn forget(&mut self)
        ensures state { spec.state_of self.new ≡ after_refusal (spec.state_of self.old) }
        ensures same { spec.SameParts
            (D.legal self.old.runtime.driver) (D.legal self.new.runtime.driver) self.old self.new }
    {
        self.runtime.begin();
    }

    /// Refuses a command: all stays as it was, but for the trace, which is empty.
    pub(crate) fn refuse(&mut self, refusal: Refusal) -> Reply
        ensures reply { result ≡ Refused refusal }
        ensures state { spec.state_of self.new ≡ after_refusal (spec.state_of self.old) }
        ensures same { spec.SameParts
            (D.legal self.old.runtime.driver) (D.legal self.new.runtime.driver) self.old self.new }
    {
        self.forget();
        Reply::Refused(refusal)
    }

    /// Why what a job asks for is refused, if it is. What the use of a bean resolves to is written into the job.
    fn refusal(&mut self, job: &mut Job) -> Option<Refusal>
        requires { JobTellsRightly (spec.tables_of self.old) job.old }
        ensures refusal { result ≡ machine_refusal
            (spec.tables_of self.old) (machine_state (spec.state_of self.old)) (command_of job.old) }
        ensures command { command_of job.new ≡ command_of job.old }
        ensures rightly { JobTellsRightly (spec.tables_of self.old) job.new }
        ensures known { result ≡ None → KnownJob
            (spec.tables_of self.old) (spec.state_of self.old).world job.new }
        ensures kept { self.new ≡ self.old }
    {
        self.runtime.refusal(self.halted.is_some(), job)
    }

    /// Halts, since memory is wanting for what a command asks with: nothing of it was carried out.
    pub(crate) fn starve(&mut self) -> Reply
        ensures reply { result ≡ Halted Cause.Memory }
        ensures state { spec.state_of self.new ≡ without_memory (spec.state_of self.old) }
        ensures same { spec.SameParts
            (D.legal self.old.runtime.driver) (D.legal self.new.runtime.driver) self.old self.new }
    {
        self.forget();
        self.halted = Some(Cause::Memory);
        Reply::Halted(Cause::Memory)
    }

    /// Tells the numbers of the live instances. Nothing is left to be carried out then, and nothing can be cut.
    fn tell(&mut self, numbers: Seq<u32>) -> Reply
        requires numbers { numbers ≡ map (λ p. p.0) (spec.state_of self.old).world.instances }
        requires admitted { machine_refusal
            (spec.tables_of self.old) (machine_state (spec.state_of self.old)) MachineCommand.Live
            ≡ None }
        ensures answers { AnswersCommand
            (spec.tables_of self.old) (D.legal self.old.runtime.driver) (Unit {0})
            (spec.state_of self.old) MachineCommand.Live result (spec.state_of self.new) }
        ensures silent { (spec.state_of self.new).world.trace ≡ [] }
        ensures same { spec.SameParts
            (D.legal self.old.runtime.driver) (D.legal self.new.runtime.driver) self.old self.new }
    {
        self.forget();
        Reply::Live(numbers)
    }

    /// Tells them, or halts if memory is wanting for them.
    fn tell_live(&mut self) -> Reply
        requires { machine_refusal
            (spec.tables_of self.old) (machine_state (spec.state_of self.old)) MachineCommand.Live
            ≡ None }
        ensures answers { AnswersCommand
            (spec.tables_of self.old) (D.legal self.old.runtime.driver) (Unit {0})
            (spec.state_of self.old) MachineCommand.Live result (spec.state_of self.new) }
        ensures silent { (spec.state_of self.new).world.trace ≡ [] }
        ensures same { spec.SameParts
            (D.legal self.old.runtime.driver) (D.legal self.new.runtime.driver) self.old self.new }
    {
        match self.runtime.world().live_numbers() {
            Ok(numbers) => self.tell(numbers),
            Err(_) => self.starve(),
        }
    }

    /// Begins a job that isn't refused: what is left of it then.
    pub(crate) fn begin_admitted(&mut self, job: Job) -> Left
        requires { CanBegin (spec.tables_of self.old) (spec.state_of self.old) job }
        ensures left { IsLeftOf (spec.tables_of self.old) (D.legal self.old.runtime.driver)
            (spec.state_of self.old) (command_of job) result (spec.state_of self.new) }
        ensures known { KnownLeft (spec.tables_of self.new) (spec.state_of self.new) (Some result) }
        ensures same { spec.SameParts
            (D.legal self.old.runtime.driver) (D.legal self.new.runtime.driver) self.old self.new }
    {
        if asks_for_live(&job) {
            self.forget();
            return Left::Tells;
        }
        let is_valued = has_value(&job);
        let stack = begun(&mut self.runtime, job);
        Left::Runs(stack, is_valued)
    }

    /// Admits a job, or refuses it. Of one that is admitted, what the use of a bean resolves to is told.
    pub(crate) fn admit_job(&mut self, job: Job) -> Result<Job, Unadmitted>
        requires { JobTellsRightly (spec.tables_of self.old) job }
        ensures admits { AdmitsCommand (spec.tables_of self.old) (spec.state_of self.old)
            (command_of job) result (spec.state_of self.new) }
        ensures kept { OnOk result (self.new ≡ self.old) }
        ensures same { spec.SameParts
            (D.legal self.old.runtime.driver) (D.legal self.new.runtime.driver) self.old self.new }
    {
        let mut job = job;
        match self.refusal(&mut job) {
            Some(refusal) => {
                self.forget();
                Err(Unadmitted::Refused(refusal))
            }
            None => Ok(job),
        }
    }

    /// Admits a command, or refuses it: what it asks for then.
    pub(crate) fn admit(&mut self, command: &Command) -> Result<Job, Unadmitted>
        ensures admits { AdmitsCommand (spec.tables_of self.old) (spec.state_of self.old)
            (machine_command (spec.names_of self.old) command.now) result (spec.state_of self.new) }
        ensures kept { OnOk result (self.new ≡ self.old) }
        ensures same { spec.SameParts
            (D.legal self.old.runtime.driver) (D.legal self.new.runtime.driver) self.old self.new }
    {
        match self.refusal_in_state(command) {
            Some(refusal) => {
                self.forget();
                Err(Unadmitted::Refused(refusal))
            }
            None => match job_for(self.runtime.alloc, self.names(), command) {
                Ok(job) => self.admit_job(job),
                Err(_) => {
                    self.forget();
                    Err(Unadmitted::Starves)
                }
            },
        }
    }

    /// Begins a command, or refuses it: what is left of it then.
    pub(crate) fn begin_command(&mut self, command: &Command) -> Result<Left, Refusal>
        ensures begins { BeginsCommand (spec.tables_of self.old) (D.legal self.old.runtime.driver)
            (spec.state_of self.old) (machine_command (spec.names_of self.old) command.now)
            result (spec.state_of self.new) }
        ensures known { IfOk result (λ left.
            KnownLeft (spec.tables_of self.new) (spec.state_of self.new) (Some left)) }
        ensures same { spec.SameParts
            (D.legal self.old.runtime.driver) (D.legal self.new.runtime.driver) self.old self.new }
    {
        match self.admit(command) {
            Ok(job) => Ok(self.begin_admitted(job)),
            Err(Unadmitted::Refused(refusal)) => Err(refusal),
            Err(Unadmitted::Starves) => Ok(Left::Starves),
        }
    }

    /// Ends a command that was carried out, and answers it.
    fn close(&mut self, is_valued: bool, outcome: Outcome) -> Reply
        ensures reply { result ≡ reply_of is_valued outcome }
        ensures state { spec.state_of self.new
            ≡ record (spec.state_of self.old) { halted = cause_of (outcome_of outcome) } }
        ensures same { spec.SameParts
            (D.legal self.old.runtime.driver) (D.legal self.new.runtime.driver) self.old self.new }
    {
        let halted = cause(&outcome);
        self.halted = halted;
        reply_of(is_valued, outcome)
    }

    /// Goes on with what is left of a command, until one entry more than so many is due or it is over.
    pub(crate) fn go_on(&mut self, left: Left, most: u64) -> Progress
        requires { KnownLeft (spec.tables_of self.old) (spec.state_of self.old) (Some left) }
        ensures goes { KeepsOn (spec.tables_of self.old) (D.legal self.old.runtime.driver)
            left (spec.state_of self.old) result (spec.state_of self.new) }
        ensures counted { WritesMost most (spec.state_of self.old) (turned_of result)
            (spec.state_of self.new) }
        ensures known { KnownLeft (spec.tables_of self.new) (spec.state_of self.new)
            (left_in result) }
        ensures same { spec.SameParts
            (D.legal self.old.runtime.driver) (D.legal self.new.runtime.driver) self.old self.new }
    {
        match left {
            Left::Starves => Progress::Finished(self.starve()),
            Left::Tells => Progress::Finished(self.tell_live()),
            Left::Runs(stack, is_valued) => match turn_of(&mut self.runtime, stack, most) {
                Ok(Turn::Running(stack)) => Progress::Running(Left::Runs(stack, is_valued)),
                Ok(Turn::Finished(outcome)) => Progress::Finished(self.close(is_valued, outcome)),
                Err(_) => {
                    let cut = Outcome::Cut(Cause::Memory);
                    Progress::Finished(self.close(is_valued, cut))
                }
            },
        }
    }

    /// Why a command is refused while another is under way.
    pub(crate) fn busy_refusal(&self) -> Refusal
        ensures { result ≡ busy_refusal (spec.state_of self.now) }
    {
        if self.halted.is_some() {
            return Refusal::Halted;
        }
        if self.runtime.world().is_down() {
            return Refusal::Down;
        }
        Refusal::Busy
    }

    /// Why a command is refused whatever the deployment is, if it is: the container has halted or is down, or a request or
    /// a session isn't there, or can't begin. No memory is asked for.
    fn refusal_in_state(&self, command: &Command) -> Option<Refusal>
        ensures { result ≡ refusal_in_state (machine_state (spec.state_of self.now))
            (machine_command (spec.names_of self.now) command.now) }
    {
        if self.halted.is_some() {
            return Some(Refusal::Halted);
        }
        let world = self.runtime.world();
        if world.is_down() {
            return Some(Refusal::Down);
        }
        match command {
            Command::Begin { request, session } => {
                world.refuses_begin(request.as_str(), text_of(session.as_ref()))
            }
            Command::Call { request, .. } => world.refuses_in(text_of(request.as_ref())),
            Command::Read { request, .. } => world.refuses_in(text_of(request.as_ref())),
            Command::Fire { request, .. } => world.refuses_in(text_of(request.as_ref())),
            Command::End { request } => world.refuses_in(Some(request.as_str())),
            Command::Invalidate { session } => world.refuses_invalidate(session.as_str()),
            Command::Live | Command::Shutdown => None,
        }
    }
}
