//! A container that answers the lines of an input.
ghost use Rattle.std.specs.Prelude.{IsTrue, OnOk};
ghost use Rattle.cdi_lines.specs.Served.{Blames};

use crate::container::Container;
use crate::known_lines::KnownLines;
use cdi_base::{Command, OrMemory, Refusal, Reply};
use cdi_lines::{MAX_INPUT, Responder, ServeFault, Sink, Source, serve_lines};
use cdi_machine::Driver;
use cdi_steps::Job;
use cdi_text::{JsonReader, read_command, write_reply, write_trace};
use std::alloc::{AllocError, Global};
use std::marker::Model;

impl<D: Driver> Container<D> {
    ghost use Rattle.std.specs.Prelude.{◌≡◌, IfOk, Ok, OnErr};
    ghost use Rattle.cdi_text.specs.Command.{command_in};
    ghost use Rattle.cdi_container.specs.Commands.{machine_command};
    ghost use Rattle.cdi_container.specs.KnownLines.{AreKnown};
    ghost use Rattle.cdi_container.specs.Standing.{SameParts, names_of, state_of, tables_of};
    ghost use Rattle.cdi_container.specs.Sessions.{AnswersRead};
    ghost use Rattle.cdi_container.specs.States.{AnswersCommand};
    ghost use Rattle.cdi_steps.specs.Known.{JobTellsRightly};
    ghost use Rattle.cdi_steps.specs.Words.{command_of};

    /// Carries a job out that asks for a command, or refuses it, by turns of so many entries.
    fn carry_out_known(&mut self, job: Job, slice: u64) -> Reply
        requires { JobTellsRightly (tables_of self.old) job }
        ensures answers { AnswersCommand
            (tables_of self.old) (D.legal self.old.runtime.driver) (Unit {0})
            (state_of self.old) (command_of job) result (state_of self.new) }
        ensures same { SameParts
            (D.legal self.old.runtime.driver) (D.legal self.new.runtime.driver) self.old self.new }
    {
        let admitted = self.admit_job(job);
        self.carry_out_admitted(admitted, slice)
    }

    /// Carries a command out that was read, or refuses it, by turns of so many entries. What its line asks for is kept.
    fn carry_out_read(
        &mut self,
        known_lines: &mut KnownLines,
        line: &[u8],
        command: &Command,
        slice: u64,
    ) -> Reply
        requires read { command_in line.now ≡ Ok command.now }
        requires known { AreKnown (names_of self.old) (tables_of self.old) known_lines.old }
        ensures answers { AnswersCommand
            (tables_of self.old) (D.legal self.old.runtime.driver) (Unit {0})
            (state_of self.old) (machine_command (names_of self.old) command.now)
            result (state_of self.new) }
        ensures same { SameParts
            (D.legal self.old.runtime.driver) (D.legal self.new.runtime.driver) self.old self.new }
        ensures known { AreKnown (names_of self.old) (tables_of self.old) known_lines.new }
    {
        let admitted = self.admit(command);
        known_lines.keep_admitted(self.alloc(), line, &admitted);
        self.carry_out_admitted(admitted, slice)
    }

    /// The reply to a line, whose command is carried out by turns of so many entries. A line that was read lately isn't read anew. If
    /// memory runs out for reading it, nothing changes.
    fn reply_to(
        &mut self,
        reader: &mut JsonReader,
        known_lines: &mut KnownLines,
        line: &[u8],
        slice: u64,
    ) -> Result<Reply, AllocError>
        requires { AreKnown (names_of self.old) (tables_of self.old) known_lines.old }
        ensures answers { IfOk result (λ reply.
            AnswersRead (names_of self.old) (tables_of self.old)
            (D.legal self.old.runtime.driver) (Unit {0})
            (command_in line.now) (state_of self.old) reply (state_of self.new)) }
        ensures same { SameParts
            (D.legal self.old.runtime.driver) (D.legal self.new.runtime.driver) self.old self.new }
        ensures err { OnErr result (self.new ≡ self.old) }
        ensures known { AreKnown (names_of self.old) (tables_of self.old) known_lines.new }
    {
        let alloc = self.alloc();
        match known_lines.find(alloc, line) {
            Some(job) => Ok(self.carry_out_known(job, slice)),
            None => match read_command(alloc, reader, line) {
                Ok(command) => Ok(self.carry_out_read(known_lines, line, &command, slice)),
                Err(OrMemory::Fault(_)) => Ok(self.refuse(Refusal::BadLine)),
                Err(OrMemory::Memory) => Err(AllocError),
            },
        }
    }
}

/// A container that answers the lines of an input, with the trace of what each did or without.
pub struct Session<D: Driver> {
    container: Container<D>,
    /// What reads the lines.
    reader: JsonReader,
    /// Those that were read lately.
    known_lines: KnownLines,
    shows_trace: bool,
    /// By turns of so many entries each command is carried out.
    slice: u64,
}

/// In one call, so that the proof of each function that owns a session has one step here, and not one for each of its parts.
impl<D: Driver + Drop> Drop for Session<D> {
    fn drop(self) {
        let Self {
            container: _container,
            reader: _reader,
            known_lines: _known_lines,
            shows_trace: _shows_trace,
            slice: _slice,
        } = self;
    }
}

impl<D: Driver> Model for Session<D> {
    ghost use Rattle.std.specs.Coded.{codes};
    ghost use Rattle.cdi_run_tables.specs.contracts.tables.RunTables as run_tables;
    ghost use Rattle.cdi_container.specs.KnownLines.{AreKnown};
    ghost use Rattle.cdi_container.specs.Sessions.{SessionParts};
    ghost use Rattle.cdi_container.specs.Standing.{names_of, tables_of};

    ghost Value = { SessionParts D };

    ghost coded = { Prim.hlevel (codes, run_tables.the_row.coded) };

    ghost view = { λ s. record {
      container = s.container;
      shows_trace = s.shows_trace;
      slice = s.slice;
    } };

    ghost invariant = { λ s. AreKnown (names_of s.container) (tables_of s.container) s.known_lines };
}

impl<D: Driver> Responder for Session<D> {
    ghost use Rattle.cdi_container.specs.Sessions.{AnswersSo};

    ghost answers = { λ s line text t. AnswersSo
        (D.legal s.container.runtime.driver) (D.legal t.container.runtime.driver) s line text t };

    fn answer(&mut self, alloc: Global, line: &[u8]) -> Result<Vec<u8>, AllocError> {
        let reader = &mut self.reader;
        let known_lines = &mut self.known_lines;
        let reply = self
            .container
            .reply_to(reader, known_lines, line, self.slice)?;
        self.text_of(alloc, &reply)
    }
}

impl<D: Driver> Session<D> {
    ghost use Rattle.std.specs.Prelude.{◌≡◌, IfOk};
    ghost use Rattle.cdi_container.specs.Standing.{names_of, state_of};
    ghost use Rattle.cdi_container.specs.Sessions.{ServedBy, reply_in};

    /// A container whose replies stand alone, or behind the entries of their commands, which are carried out by turns of so many
    /// entries, of which 0 counts as 1. No reply depends on their number.
    pub fn new(alloc: Global, container: Container<D>, shows_trace: bool, slice: u64) -> Session<D>
        ensures container { result.container ≡ container }
        ensures shows { result.shows_trace ≡ shows_trace }
        ensures slice { result.slice ≡ slice }
    {
        Session {
            container,
            reader: JsonReader::new(alloc),
            known_lines: KnownLines::new(),
            shows_trace,
            slice,
        }
    }

    /// The container.
    pub fn container(&self) -> &Container<D>
        ensures { result.now ≡ self.now.container }
    {
        &self.container
    }

    /// The lines of a reply to the command before: its entries if they are shown, and the reply.
    fn text_of(&self, alloc: Global, reply: &Reply) -> Result<Vec<u8>, AllocError>
        ensures { IfOk result (λ text. text.items ≡ reply_in (names_of self.now.container)
            self.now.shows_trace reply.now (state_of self.now.container)) }
    {
        let names = self.container.names();
        let reply = write_reply(alloc, names, reply)?;
        if !self.shows_trace {
            return Ok(reply);
        }
        let mut lines = write_trace(alloc, names, self.container.trace())?;
        lines.extend_from_slice(&reply)?;
        Ok(lines)
    }

    /// Writes the reply to the container's start, and then reads command lines and writes the reply to each, up to the end
    /// of the input; before each reply stand the entries of its command, one in a line, if the session shows them. The
    /// container has to be fresh from its start, so that the first entries are those of the start.
    ///
    /// Whatever the result is, the lines that stand written are those of a run of the machine for the whole lines that were
    /// read, under acts that the driver promises: all of them at `Ok`; if a read failed, or more than [`MAX_INPUT`] bytes
    /// came, those to the lines that were complete before; if memory ran out for a line or a reply, none, or whole replies in
    /// front, and the container is as these commands left it, or as the next one did, whose reply is lost; if a write
    /// failed, a front part of the whole. Want of memory within a command is no fault: the reply then says so, and the
    /// container has halted.
    pub fn serve<R: Source, W: Sink>(
        &mut self,
        alloc: Global,
        input: &mut R,
        output: &mut W,
    ) -> Result<(), ServeFault>
        ensures served { ServedBy MAX_INPUT (λ driver. D.legal driver) self.old self.new
            (R.unread input.old) (R.unread input.new) (W.written output.old) (W.written output.new)
            result }
        ensures passed_on { OnOk result (IsTrue (W.is_passed_on output.new)) }
        ensures blames { Blames result
            (R.has_failed input.old) (R.has_failed input.new)
            (W.has_failed output.old) (W.has_failed output.new) }
    {
        let Ok(greeting) = self.text_of(alloc, self.container.boot_reply()) else {
            return Err(ServeFault::Memory);
        };
        serve_lines(alloc, &greeting, input, output, self)
    }
}
