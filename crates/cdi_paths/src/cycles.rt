//! Which nodes of a graph lie on a cycle.
//!
//! A walk in depth over the graph gives an order of its nodes, and walks over the graph with its edges the other way round, from one node
//! after another in that order, then find those that lead to each other (Kosaraju's algorithm).
ghost use Rattle.std.specs.Prelude.{◌≡◌, ◌<◌, ◌↔◌, ℕ, length, IsTrue, IfOk};
ghost use Rattle.cdi_paths.specs.Graph.{IsGraph, ProperPath};
ghost use Rattle.cdi_paths.specs.Marks.{HasMarkedCycles, HasSeenGroup, IsClosed};

use crate::finish_order::finish_order;
use crate::reversed::reversed;
use crate::walk::mark_from;
use cdi_base::Seq;
use std::alloc::{AllocError, Global};
use std::marker::Model;

/// A finite directed graph with the nodes that lie on a cycle. Contracts see the graph: for each node, by its number, the nodes that
/// its edges lead to, in any order and perhaps repeated. The numbers that have no row are nodes without edges.
///
/// For n nodes with e edges it takes about n + e steps to make; a question takes constant time.
#[derive(Drop)]
pub struct Cycles {
    graph: Seq<Seq<usize>>,
    on_cycle: Vec<bool>,
}

impl Model for Cycles {
    ghost use Rattle.std.specs.Prelude.{ℕ, List};
    ghost use Rattle.cdi_paths.specs.Marks.{HasMarkedCycles};

    ghost Value = { List (List ℕ) };

    ghost view = { λ c. c.graph };

    ghost invariant = { λ c. HasMarkedCycles c.graph c.on_cycle.items };
}

/// Marks a root and all that leads to it by nodes without a mark, and says whether the root leads to itself so. What is given is the
/// graph with its edges the other way round.
fn see_group(
    alloc: Global,
    sources: &[Seq<usize>],
    root: usize,
    seen: &mut [bool],
) -> Result<bool, AllocError>
    requires graph { IsGraph sources.now }
    requires root { root < length sources.now }
    requires len { length seen.old ≡ length sources.now }
    requires closed { IsClosed sources.now seen.old }
    ensures { IfOk result (HasSeenGroup sources.now root seen.old seen.new) }
{
    mark_from(alloc, sources, root, seen)?;
    let leads_back = seen[root];
    seen[root] = true;
    Ok(leads_back)
}

/// For each node whether it lies on a cycle. The nodes are taken in the order in which a walk in depth is done with them, the last
/// first. So all that leads to a node without coming by a node that was taken before can be reached from that node, too.
fn cycle_marks(alloc: Global, graph: &[Seq<usize>]) -> Result<Vec<bool>, AllocError>
    requires { IsGraph graph.now }
    ensures { IfOk result (λ marks. HasMarkedCycles graph.now marks.items) }
{
    let sources = reversed(alloc, graph)?;
    let mut order = finish_order(alloc, graph)?;
    let mut seen = vec![in alloc; false; graph.len()]?;
    let mut on_cycle = vec![in alloc; true; graph.len()]?;
    while let Some(root) = order.pop() {
        if !seen[root] {
            on_cycle[root] = see_group(alloc, sources.as_slice(), root, seen.as_mut_slice())?;
        }
    }
    Ok(on_cycle)
}

impl Cycles {
    /// The nodes on a cycle of a graph, each edge of which leads to a node that has a row.
    pub fn build(alloc: Global, graph: Seq<Seq<usize>>) -> Result<Cycles, AllocError>
        requires { IsGraph graph }
        ensures { IfOk result (λ cycles. cycles ≡ graph) }
    {
        let on_cycle = cycle_marks(alloc, graph.as_slice())?;
        Ok(Cycles { graph, on_cycle })
    }

    /// Whether a node lies on a cycle, an edge to itself included.
    pub fn is_on_cycle(&self, node: usize) -> bool
        ensures { IsTrue result ↔ ProperPath self.now node node }
    {
        match self.on_cycle.get(node) {
            Some(mark) => *mark,
            None => false,
        }
    }
}
