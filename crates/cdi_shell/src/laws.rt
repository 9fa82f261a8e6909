//! Laws of the definitions that the contracts cite. A call of one of these does nothing: its contract is the law.
ghost use Rattle.cdi_bodies.specs.Table.{entries_of};
ghost use Rattle.cdi_shell.specs.Laws.{OneOutput};
ghost use Rattle.cdi_shell.specs.Thrown.{LinesTellTrueNames, TellsTrueNames};
ghost use Rattle.cdi_shell.specs.WorkedLines.{WorkedLines};

use cdi_bodies::Bodies;
use cdi_container::laws as container;
use cdi_report::laws as read_laws;

/// Where no read or write fails and memory does not run out, what the program writes is a function of its settings, of the
/// bytes of the deployment and of the bytes of the input, and so is how it ends. That holds of an input that is too long,
/// too.
pub fn law_one_output()
    ensures { OneOutput }
{}

/// In a container of a deployment that was read with its scripts and accepted, each exception that is replied is told by a
/// name, which has 1 to 255 letters: the line `["threw",""]` is never one of its replies.
pub fn law_tells_true_names(bodies: &Bodies)
    ensures { TellsTrueNames (entries_of bodies.now) }
{
    container::law_accepted_is_sound(bodies);
    read_laws::law_reads_facts();
}

/// So it is with the lines of a run: whatever run of the program there is on the bytes of a deployment, if its container lives,
/// each line that it writes and that tells an exception tells it by a name.
pub fn law_lines_tell_true_names()
    ensures { LinesTellTrueNames }
{}

/// Worked lines of the definitions: each kind of reply, the lines of refused deployments, where lines end, and what calls
/// of a counter ask.
#[tactic(auto, using(crate::proofs::WorkedLines::worked_lines))]
pub fn law_worked_lines()
    ensures { WorkedLines }
{}
