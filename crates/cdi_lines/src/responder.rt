//! What answers lines.
ghost use Rattle.std.specs.Prelude.{ℕ, List, IfOk, OnErr};
ghost use Rattle.cdi_lines.specs.Served.{LosesReply};

use std::alloc::{AllocError, Global};

/// Answers lines, one after the other. It may change with each.
pub trait Responder {
    // It may answer this line so, and is then that.
    ghost answers: { Self → List ℕ → List ℕ → Self → Type 0 };

    /// The reply to a line, which comes without its line feed. The reply goes out as it is. The error is for memory
    /// alone, and ends the serving: the line is then not answered, and nothing has changed, or it is, and the reply is
    /// lost.
    fn answer(&mut self, alloc: Global, line: &[u8]) -> Result<Vec<u8>, AllocError>
        ensures replies { IfOk result (λ reply. answers self.old line.now reply.items self.new) }
        ensures lost { OnErr result (LosesReply answers self.old line.now self.new) };
}
