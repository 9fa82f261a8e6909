//! The cycle through a node of a graph that a hint tells.
ghost use Rattle.std.specs.Prelude.{◌≡◌, IfOk};
ghost use Rattle.std.specs.List.{list_all};
ghost use Rattle.cdi_cycle_hints.specs.ToldCycle as spec;

use cdi_base::Seq;
use cdi_paths::cycle_through;
use std::alloc::{AllocError, Global};

/// The most nodes of a graph in which a cycle is looked for.
const MAX_NODES: usize = 512;

/// The most edges from one of them.
const MAX_EDGES: usize = 32;

/// Whether few edges lead from a node.
fn is_short(row: &Seq<usize>) -> bool
    ensures { result ≡ spec.is_short row.now }
{
    row.len() <= MAX_EDGES
}

fn are_short(graph: &[Seq<usize>]) -> bool
    ensures { result ≡ list_all spec.is_short graph.now }
{
    graph.iter().all(|row| is_short(row))
}

/// Whether a graph is so small that each hint can look for a cycle in it.
fn is_small(graph: &[Seq<usize>]) -> bool
    ensures { result ≡ spec.is_small graph.now }
{
    graph.len() <= MAX_NODES && are_short(graph)
}

/// The nodes of a cycle through one, if it stands on one and the graph is small: the first and the last are this one.
pub(crate) fn told_cycle(
    alloc: Global,
    graph: &[Seq<usize>],
    node: usize,
) -> Result<Seq<usize>, AllocError>
    ensures { IfOk result (λ nodes. nodes ≡ spec.told_cycle graph.now node) }
{
    if !is_small(graph) {
        return Ok(Seq::empty(alloc));
    }
    match cycle_through(alloc, graph, node)? {
        Some(nodes) => Ok(nodes),
        None => Ok(Seq::empty(alloc)),
    }
}
