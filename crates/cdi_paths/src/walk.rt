//! Walks along edges, which mark each node that they come to.
ghost use Rattle.std.specs.Prelude.{◌≡◌, ◌<◌, length, All, OnOk};
ghost use Rattle.cdi_paths.specs.Graph.{IsGraph};
ghost use Rattle.cdi_paths.specs.Marks.{HasMarked, HasWalked, IsClosed};

use cdi_base::Seq;
use std::alloc::{AllocError, Global};

/// Marks the targets of a node, and puts those that had no mark on the list of what is ahead.
fn mark_targets(
    targets: &[usize],
    marks: &mut [bool],
    ahead: &mut Vec<usize>,
) -> Result<(), AllocError>
    requires { All (λ a. a < length marks.old) targets.now }
    ensures { OnOk result
        (HasMarked targets.now marks.old marks.new ahead.old.items ahead.new.items) }
{
    for target in targets {
        if !marks[*target] {
            marks[*target] = true;
            ahead.push(*target)?;
        }
    }
    Ok(())
}

/// Marks each node without a mark that a walk from the root comes to by such nodes. The root gets a mark only if it comes back to it.
pub(crate) fn mark_from(
    alloc: Global,
    graph: &[Seq<usize>],
    root: usize,
    marks: &mut [bool],
) -> Result<(), AllocError>
    requires graph { IsGraph graph.now }
    requires root { root < length graph.now }
    requires len { length marks.old ≡ length graph.now }
    requires closed { IsClosed graph.now marks.old }
    ensures { OnOk result (HasWalked graph.now root marks.old marks.new) }
{
    let mut ahead = Vec::new(alloc);
    ahead.push(root)?;
    while let Some(node) = ahead.pop() {
        mark_targets(graph[node].as_slice(), marks, &mut ahead)?;
    }
    Ok(())
}
