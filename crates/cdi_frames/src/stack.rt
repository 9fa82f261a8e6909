//! The engine's stack: what is next, and what waits for its outcome.
ghost use Rattle.std.specs.Prelude.{◌≡◌, List, []};
ghost use Rattle.cdi_frames.specs.Stacks.{stack_after, stack_at};

use cdi_base::Entry;
use cdi_host::Stack as Waiting;
use cdi_steps::task::{Continuation, Frame, Next, Outcome, Task};
use std::alloc::Global;

/// What is next.
#[derive(Drop)]
pub enum Pending {
    /// A task is carried out.
    Does(Task),
    /// An outcome is given to what waits for it.
    Gives(Outcome),
    /// An entry is due, and then what comes after it.
    Writes(Entry, Continuation),
}

impl Pending {
    /// The same, as what a step comes to.
    pub(crate) fn ahead(self) -> Next
        ensures { (ks : List Frame) → stack_after ks result ≡ stack_at ks self }
    {
        match self {
            Pending::Does(task) => Next::Goes(task),
            Pending::Gives(outcome) => Next::Finished(outcome),
            Pending::Writes(entry, continuation) => Next::Writes(entry, continuation),
        }
    }
}

/// A run between two of its steps: what is next, and what waits, the innermost first.
#[derive(Drop)]
pub struct Stack {
    pub frames: Waiting<Frame>,
    pub pending: Pending,
}

/// What a turn comes to.
#[derive(Drop)]
pub enum Turn {
    /// It goes on from here.
    Running(Stack),
    /// It is over.
    Finished(Outcome),
}

impl Stack {
    /// A task is next, and nothing waits for it.
    pub fn start(alloc: Global, task: Task) -> Stack
        ensures frames { result.frames ≡ [] }
        ensures pending { result.pending ≡ Pending.Does task }
    {
        Stack {
            frames: Waiting::new(alloc),
            pending: Pending::Does(task),
        }
    }

    /// An entry is due at these frames.
    pub(crate) fn due(frames: Waiting<Frame>, entry: Entry, continuation: Continuation) -> Stack
        ensures { result ≡ stack_after frames (Next.Writes entry continuation) }
    {
        Stack {
            frames,
            pending: Pending::Writes(entry, continuation),
        }
    }
}
