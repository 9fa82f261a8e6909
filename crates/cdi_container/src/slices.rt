//! Carries commands out by turns, up to their end.
ghost use Rattle.std.specs.Prelude.{Err, IfOk};
ghost use Rattle.cdi_machine.specs.Commands.{Command as MachineCommand};
ghost use Rattle.cdi_steps.specs.Words.{command_of};
ghost use Rattle.cdi_container.specs.Commands.{machine_command};
ghost use Rattle.cdi_container.specs.Standing.{SameParts, names_of, state_of, tables_of};
ghost use Rattle.cdi_container.specs.States.{AnswersCommand, ContainerState};
ghost use Rattle.cdi_container.specs.Turns.{AdmitsCommand, CanBegin};

use crate::container::Container;
use crate::left::{Progress, Unadmitted};
use cdi_base::{Command, Reply};
use cdi_machine::Driver;
use cdi_steps::Job;

impl<D: Driver> Container<D> {
    /// Carries a job out that isn't refused, by turns of so many entries, of which 0 counts as 1.
    fn carry_out_job(&mut self, job: Job, most: u64) -> Reply
        requires { CanBegin (tables_of self.old) (state_of self.old) job }
        ensures answers { AnswersCommand
            (tables_of self.old) (D.legal self.old.runtime.driver) (Unit {0})
            (state_of self.old) (command_of job) result (state_of self.new) }
        ensures same { SameParts
            (D.legal self.old.runtime.driver) (D.legal self.new.runtime.driver) self.old self.new }
    {
        let most = most.max(1);
        let mut left = self.begin_admitted(job);
        'turns: loop {
            match self.go_on(left, most) {
                Progress::Running(rest) => left = rest,
                Progress::Finished(reply) => return reply,
            }
        }
    }

    /// Tells why a command isn't carried out, and halts if memory was wanting for what it asks with.
    fn answer_unadmitted(&mut self, why: Unadmitted) -> Reply
        ensures answers { (s : ContainerState) (c : MachineCommand)
            → AdmitsCommand (tables_of self.old) s c (Err why) (state_of self.old)
            → AnswersCommand (tables_of self.old) (D.legal self.old.runtime.driver) (Unit {0})
            s c result (state_of self.new) }
        ensures same { SameParts
            (D.legal self.old.runtime.driver) (D.legal self.new.runtime.driver) self.old self.new }
    {
        match why {
            Unadmitted::Refused(refusal) => Reply::Refused(refusal),
            Unadmitted::Starves => self.starve(),
        }
    }

    /// Carries out what a command was admitted as, by turns of so many entries, or tells why it isn't carried out.
    pub(crate) fn carry_out_admitted(
        &mut self,
        admitted: Result<Job, Unadmitted>,
        most: u64,
    ) -> Reply
        requires { IfOk admitted (CanBegin (tables_of self.old) (state_of self.old)) }
        ensures answers { (s : ContainerState) (c : MachineCommand)
            → AdmitsCommand (tables_of self.old) s c admitted (state_of self.old)
            → AnswersCommand (tables_of self.old) (D.legal self.old.runtime.driver) (Unit {0})
            s c result (state_of self.new) }
        ensures same { SameParts
            (D.legal self.old.runtime.driver) (D.legal self.new.runtime.driver) self.old self.new }
    {
        match admitted {
            Ok(job) => self.carry_out_job(job, most),
            Err(why) => self.answer_unadmitted(why),
        }
    }

    /// Carries a command out as [`Container::command`] does, by turns of so many entries, of which 0 counts as 1. What comes of it
    /// doesn't depend on their number.
    pub fn command_by_turns(&mut self, command: &Command, most: u64) -> Reply
        ensures answers { AnswersCommand
            (tables_of self.old) (D.legal self.old.runtime.driver) (Unit {0})
            (state_of self.old) (machine_command (names_of self.old) command.now)
            result (state_of self.new) }
        ensures same { SameParts
            (D.legal self.old.runtime.driver) (D.legal self.new.runtime.driver) self.old self.new }
    {
        let admitted = self.admit(command);
        self.carry_out_admitted(admitted, most)
    }

    /// Carries a command out, or refuses it: the first refusal that holds, in the order of [`Refusal`](cdi_base::Refusal). A
    /// refused command leaves all as it was, but for the trace, which is empty. A command that is cut is answered as halted with
    /// the cause, and every later one is refused.
    ///
    /// Want of memory is such a cause, also before anything is carried out: then the trace is empty. Whether the container
    /// has halted or is down, and whether the request and the session are there, is looked at before any memory is asked
    /// for.
    pub fn command(&mut self, command: &Command) -> Reply
        ensures answers { AnswersCommand
            (tables_of self.old) (D.legal self.old.runtime.driver) (Unit {0})
            (state_of self.old) (machine_command (names_of self.old) command.now)
            result (state_of self.new) }
        ensures same { SameParts
            (D.legal self.old.runtime.driver) (D.legal self.new.runtime.driver) self.old self.new }
    {
        self.command_by_turns(command, u64::MAX)
    }
}
