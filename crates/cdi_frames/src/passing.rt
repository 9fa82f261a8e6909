//! Frames that hand on what they waited for.
ghost use Rattle.std.specs.Prelude.{◌≡◌, false, IsTrue};
ghost use Rattle.cdi_steps.specs.Meanings.{after};
ghost use Rattle.cdi_steps.specs.Ranks.{back_rank};
ghost use Rattle.cdi_steps.specs.Steps.{Steps};
ghost use Rattle.cdi_frames.specs.Hearing.{PassesCut};
ghost use Rattle.cdi_steps.specs.declared.task.Next.{Next};

use cdi_base::InterceptorMethod;
use cdi_host::{Contents, Tables};
use cdi_steps::task::{Completion, Frame, Outcome};

/// Ends a body, the chain of a business method or an invocation, which hand on what they come to as it is. Tells whether the frame
/// is one that waits for such an end; if not, nothing changes.
pub(crate) fn passes<T: Tables, W: Contents>(
    tables: &T,
    world: &mut W,
    frame: &Frame,
    outcome: &Outcome,
) -> bool
    ensures step { IsTrue result → Steps (T.tables tables.now)
        (after frame.now outcome.now) (back_rank frame.now outcome.now)
        (W.world world.old) (Next.Finished outcome.now) (W.world world.new) }
    ensures cut { IsTrue result → PassesCut outcome.now
        (W.world world.old) (Next.Finished outcome.now) (W.world world.new) }
    ensures kept { result ≡ false → W.world world.new ≡ W.world world.old }
{
    match outcome {
        Outcome::Ends(completion) => match frame {
            Frame::Stopping => {
                world.stop();
                true
            }
            Frame::Exiting => {
                world.exit();
                true
            }
            Frame::AtEnd { role } => reaches(tables, world, *role, completion),
            _ => false,
        },
        Outcome::Cut(_cause) => false,
    }
}

/// Ends the chain of a business method that gave something. Tells whether it is one; if not, nothing changes.
fn reaches<T: Tables, W: Contents>(
    _tables: &T,
    world: &mut W,
    role: InterceptorMethod,
    completion: &Completion,
) -> bool
    ensures step { IsTrue result → Steps (T.tables _tables.now)
        (after (Frame.AtEnd role) (Outcome.Ends completion.now))
        (back_rank (Frame.AtEnd role) (Outcome.Ends completion.now))
        (W.world world.old) (Next.Finished (Outcome.Ends completion.now)) (W.world world.new) }
    ensures kept { result ≡ false → W.world world.new ≡ W.world world.old }
{
    match role {
        InterceptorMethod::AroundInvoke => match completion {
            Completion::Gave(_given) => {
                world.reach();
                true
            }
            Completion::Threw(_exception) => false,
        },
        _ => false,
    }
}
