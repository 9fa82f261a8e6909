//! The order in which a walk in depth is done with the nodes of a graph.
ghost use Rattle.std.specs.Prelude.{◌≡◌, ◌<◌, ◌++◌, [], ◌∷◌, true, false, if◌then◌else◌, length, map, All, OnOk, IfOk, slice_set};
ghost use Rattle.cdi_paths.specs.Graph.{targets_of, IsGraph};
ghost use Rattle.cdi_paths.specs.Marks.{is_marked};
ghost use Rattle.cdi_paths.specs.FinishOrder.{IsFinishOrder};
ghost use Rattle.cdi_paths.specs.Steps.{HasEntries};
ghost use Rattle.cdi_paths.specs.declared.finish_order.Step.TheVariants.{Enter, Leave};

use cdi_base::Seq;
use std::alloc::{AllocError, Global};

/// A step of a walk in depth: to go into a node, or to be done with it.
#[derive(Drop)]
enum Step {
    Enter(usize),
    Leave(usize),
}

/// A step into each node of a graph of that many.
fn entries(alloc: Global, count: usize) -> Result<Vec<Step>, AllocError>
    ensures { IfOk result (λ steps. HasEntries count steps.items) }
{
    let mut steps = Vec::new(alloc);
    for node in 0..count {
        steps.push(Step::Enter(node))?;
    }
    Ok(steps)
}

/// Adds a step into each of the targets.
fn add_entries(targets: &[usize], steps: &mut Vec<Step>) -> Result<(), AllocError>
    ensures { OnOk result (steps.new.items ≡ steps.old.items ++ map Enter targets.now) }
{
    for target in targets {
        steps.push(Step::Enter(*target))?;
    }
    Ok(())
}

/// Goes into a node that has no mark: it gets one, and is left once each of its targets has one.
fn enter(
    graph: &[Seq<usize>],
    node: usize,
    marks: &mut [bool],
    steps: &mut Vec<Step>,
) -> Result<(), AllocError>
    requires node { node < length graph.now }
    requires len { length marks.old ≡ length graph.now }
    ensures marks { OnOk result (marks.new ≡ slice_set marks.old node true) }
    ensures steps { OnOk result (steps.new.items ≡ (if is_marked marks.old node
        then steps.old.items
        else (steps.old.items ++ Leave node ∷ []) ++ map Enter (targets_of graph.now node))) }
{
    if !marks[node] {
        marks[node] = true;
        steps.push(Step::Leave(node))?;
        add_entries(graph[node].as_slice(), steps)?;
    }
    Ok(())
}

/// The nodes of a graph in the order in which a walk in depth is done with them.
pub(crate) fn finish_order(alloc: Global, graph: &[Seq<usize>]) -> Result<Vec<usize>, AllocError>
    requires { IsGraph graph.now }
    ensures { IfOk result (λ order. IsFinishOrder graph.now order.items) }
{
    let mut marks = vec![in alloc; false; graph.len()]?;
    let mut steps = entries(alloc, graph.len())?;
    let mut order = Vec::new(alloc);
    while let Some(step) = steps.pop() {
        match step {
            Step::Enter(node) => enter(graph, node, marks.as_mut_slice(), &mut steps)?,
            Step::Leave(node) => order.push(node)?,
        }
    }
    Ok(order)
}
