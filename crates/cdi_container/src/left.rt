//! What is left of a command that was started.
ghost use Rattle.std.specs.Prelude.{◌≡◌};

use cdi_base::{Refusal, Reply};
use cdi_frames::stack::Stack;
use std::marker::Model;

/// Why a command isn't carried out.
#[derive(Drop)]
pub enum Unadmitted {
    /// It is refused.
    Refused(Refusal),
    /// Memory was wanting for what it asks with.
    Starves,
}

/// What is left of a command that was started, and how it is answered in the end.
#[derive(Drop)]
pub enum Left {
    /// It goes on from here, and is answered by its value if it has one.
    Runs(Stack, bool),
    /// The numbers of the live instances are to be told.
    Tells,
    /// Memory was wanting for what it asks with: the container halts at the next turn.
    Starves,
}

/// What a turn comes to.
#[derive(Drop)]
pub enum Progress {
    /// This is left.
    Running(Left),
    /// It is over, with this reply.
    Finished(Reply),
}

/// What is left of a command, as it is kept between two turns.
pub(crate) struct Kept {
    left: Left,
}

/// In one call, so that the proof of each function that owns it has one step here, and not one for each of its parts.
impl Drop for Kept {
    fn drop(self) {
        let Self { left: _left } = self;
    }
}

impl Model for Kept {
    ghost use Rattle.cdi_container.specs.declared.left.Left.{Left};

    ghost Value = { Left };

    ghost view = { λ kept. kept.left };
}

impl Kept {
    /// What is left is kept.
    pub(crate) fn new(left: Left) -> Kept
        ensures { result ≡ left }
    {
        Kept { left }
    }

    /// What is left.
    pub(crate) fn into_left(self) -> Left
        ensures { result ≡ self }
    {
        let Self { left } = self;
        left
    }
}
