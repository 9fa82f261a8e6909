//! A container whose commands are carried out by turns, so that others can be served in between.
ghost use Rattle.std.specs.Prelude.{◌≡◌, None, Option, drop};
ghost use Rattle.cdi_container.specs.Commands.{machine_command};
ghost use Rattle.cdi_container.specs.Standing.{SameParts, names_of, state_of, tables_of};
ghost use Rattle.cdi_container.specs.Turns as spec;

use crate::container::Container;
use crate::left::{Kept, Progress};
use cdi_base::{Command, Entry, Refusal, Reply};
use cdi_machine::Driver;
use std::marker::Model;

/// What a turn is answered.
#[derive(Drop)]
pub enum Turned {
    /// No command is under way.
    Idle,
    /// The command isn't over.
    Running,
    /// The command is over, with this reply.
    Finished(Reply),
}

/// A container whose commands are carried out by turns. While one is under way, each other is refused.
pub struct Turns<D: Driver> {
    container: Container<D>,
    left: Option<Kept>,
    /// So many entries in front of the trace aren't shown any more.
    shown_from: usize,
}

/// In one call, so that the proof of each function that owns such a container has one step here, and not one for each of its parts.
impl<D: Driver + Drop> Drop for Turns<D> {
    fn drop(self) {
        let Self {
            container: _container,
            left: _left,
            shown_from: _shown_from,
        } = self;
    }
}

impl<D: Driver> Model for Turns<D> {
    ghost use Rattle.std.specs.Coded.{codes};
    ghost use Rattle.cdi_run_tables.specs.contracts.tables.RunTables as run_tables;
    ghost use Rattle.cdi_container.specs.Standing.{state_of, tables_of};
    ghost use Rattle.cdi_container.specs.Turns.{KnownLeft, TurnsParts};

    ghost Value = { TurnsParts D };

    ghost coded = { Prim.hlevel (codes, run_tables.the_row.coded) };

    ghost view = { λ t. record {
      container = t.container;
      left = t.left;
      shown_from = t.shown_from;
    } };

    ghost invariant = { λ t. KnownLeft (tables_of t.container) (state_of t.container) t.left };
}

impl<D: Driver> Turns<D> {
    /// A container in which no command is under way.
    pub fn new(container: Container<D>) -> Turns<D>
        ensures { result ≡ record { container = container; left = None; shown_from = 0 } }
    {
        Turns {
            container,
            left: None,
            shown_from: 0,
        }
    }

    /// The container, as the turns so far have left it.
    pub fn container(&self) -> &Container<D>
        ensures { result.now ≡ self.now.container }
    {
        &self.container
    }

    /// What the command under way has written since it was started, or since another was refused; or what the last one did.
    pub fn trace(&self) -> &[Entry]
        ensures { result.now ≡ drop self.now.shown_from (state_of self.now.container).world.trace }
    {
        match self.container.trace().get(self.shown_from..) {
            Some(entries) => entries,
            None => &[],
        }
    }

    /// Starts a command, or refuses it: by the first refusal that holds, and while a command is under way each is refused.
    /// A refusal empties the trace, and changes nothing else: a command under way goes on as if none had come.
    pub fn start(&mut self, command: &Command) -> Option<Refusal>
        ensures starts { spec.StartsCommand
            (tables_of self.old.container) (D.legal self.old.container.runtime.driver)
            (machine_command (names_of self.old.container) command.now)
            self.old result self.new }
        ensures same { SameParts
            (D.legal self.old.container.runtime.driver) (D.legal self.new.container.runtime.driver)
            self.old.container self.new.container }
    {
        if self.left.is_some() {
            self.shown_from = self.container.trace().len();
            return Some(self.container.busy_refusal());
        }
        self.shown_from = 0;
        match self.container.begin_command(command) {
            Ok(left) => {
                self.left = Some(Kept::new(left));
                None
            }
            Err(refusal) => Some(refusal),
        }
    }

    /// Goes on with the command under way until one entry more than so many is due, or it is over; a turn of 0 goes on to
    /// the first entry. Whatever the turns were, the command is answered, and leaves the container, as a command that is
    /// carried out at once may be.
    pub fn turn(&mut self, most: u64) -> Turned
        ensures turns { spec.TakesTurn
            (tables_of self.old.container) (D.legal self.old.container.runtime.driver)
            self.old result self.new }
        ensures counted { spec.WritesMost most
            (state_of self.old.container) result (state_of self.new.container) }
        ensures same { SameParts
            (D.legal self.old.container.runtime.driver) (D.legal self.new.container.runtime.driver)
            self.old.container self.new.container }
    {
        let Some(kept) = self.left.take() else {
            return Turned::Idle;
        };
        match self.container.go_on(kept.into_left(), most) {
            Progress::Running(left) => {
                self.left = Some(Kept::new(left));
                Turned::Running
            }
            Progress::Finished(reply) => Turned::Finished(reply),
        }
    }
}
