//! The replies of a container.
ghost use Rattle.std.specs.Prelude.{◌≡◌, Some};
ghost use Rattle.cdi_base.specs.Words.{refusal_word, cause_word};

use crate::name::Name;
use crate::seq::Seq;
use crate::value::Value;
use std::fmt;

/// What a command is answered.
#[derive(Debug, PartialEq, Eq, Drop)]
pub enum Reply {
    /// The value of a call or a read.
    Value(Value),
    /// The class of the exception that a call, a read or a fired event ended with.
    Threw(Name),
    /// The command is done and has no value.
    Done,
    /// The numbers of the live instances, ascending.
    Live(Seq<u32>),
    /// The command was refused and changed nothing.
    Refused(Refusal),
    /// The command was cut, and the container takes no further one.
    Halted(Cause),
}

/// Why a command is refused: the first of these that holds, in this order.
#[derive(Clone, Copy, Debug, PartialEq, Eq)]
pub enum Refusal {
    /// The line is no command.
    BadLine,
    /// An earlier command was cut.
    Halted,
    /// The container is shut down.
    Down,
    /// A started command is not over.
    Busy,
    /// The named request isn't open.
    NoRequest,
    /// The request to begin is open already.
    RequestOpen,
    /// The session to invalidate isn't there.
    NoSession,
    /// The named session is about to end.
    SessionEnding,
    /// 256 requests are open.
    TooManyRequests,
    /// 1,024 sessions are there.
    TooManySessions,
    /// A type, qualifier, member of a qualifier or event class isn't declared.
    UnknownName,
    /// The bean has no such method, or no value to be read.
    NoMethod,
    /// The method takes another number of values.
    WrongCount,
}

/// Why a command was cut.
#[derive(Clone, Copy, Debug, PartialEq, Eq)]
pub enum Cause {
    /// The command has no entry left of its budget.
    Ticks,
    /// A body was to start below the last level of calls.
    Depth,
    /// No number was left for a new instance.
    Numbers,
    /// A growth was refused.
    Memory,
}

impl Refusal {
    /// The refusal as replies write it.
    pub const fn word(self) -> &'static str
        ensures { result.now ≡ refusal_word self }
    {
        match self {
            Refusal::BadLine => "BadLine",
            Refusal::Halted => "Halted",
            Refusal::Down => "Down",
            Refusal::Busy => "Busy",
            Refusal::NoRequest => "NoRequest",
            Refusal::RequestOpen => "RequestOpen",
            Refusal::NoSession => "NoSession",
            Refusal::SessionEnding => "SessionEnding",
            Refusal::TooManyRequests => "TooManyRequests",
            Refusal::TooManySessions => "TooManySessions",
            Refusal::UnknownName => "UnknownName",
            Refusal::NoMethod => "NoMethod",
            Refusal::WrongCount => "WrongCount",
        }
    }
}

impl Cause {
    /// The cause as replies write it.
    pub const fn word(self) -> &'static str
        ensures { result.now ≡ cause_word self }
    {
        match self {
            Cause::Ticks => "ticks",
            Cause::Depth => "depth",
            Cause::Numbers => "numbers",
            Cause::Memory => "memory",
        }
    }
}

impl fmt::Display for Refusal {
    ghost output = { λ refusal. Some (refusal_word refusal) };

    fn fmt<W: fmt::Write>(&self, f: &mut fmt::Formatter<W>) -> fmt::Result {
        f.write_str(self.word())
    }
}

impl fmt::Display for Cause {
    ghost output = { λ cause. Some (cause_word cause) };

    fn fmt<W: fmt::Write>(&self, f: &mut fmt::Formatter<W>) -> fmt::Result {
        f.write_str(self.word())
    }
}
