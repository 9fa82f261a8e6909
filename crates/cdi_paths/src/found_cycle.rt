//! A cycle through a node of a graph.
//!
//! In rounds it is found out from which nodes an edge leads on to the node, first by one edge, then by two, and so on. So the cycle is
//! one of the shortest, which no contract says.
ghost use Rattle.std.specs.Prelude.{◌≡◌, ◌∷◌, length, IfOk};
ghost use Rattle.std.specs.Option.{option_copied};
ghost use Rattle.cdi_paths.specs.CycleThrough as spec;

use cdi_base::Seq;
use std::alloc::{AllocError, Global};

/// The next node on the way from a node, if one is known.
fn hop_of(hops: &[Option<usize>], node: usize) -> Option<usize>
    ensures { result ≡ spec.hop_of hops.now node }
{
    match hops.get(node) {
        Some(hop) => *hop,
        None => None,
    }
}

/// Whether a node is the goal, or its way there is known.
fn leads(goal: usize, hops: &[Option<usize>], node: usize) -> bool
    ensures { result ≡ spec.leads goal hops.now node }
{
    node == goal || hop_of(hops, node).is_some()
}

/// The first of some nodes that leads to the goal.
fn first_leading<'a>(goal: usize, hops: &[Option<usize>], targets: &'a [usize]) -> Option<&'a usize>
    ensures { option_copied result ≡ spec.first_leading goal hops.now targets.now }
{
    targets.iter().find(|target| leads(goal, hops, **target))
}

/// The next node on the way from a node in the next round.
fn next_hop(goal: usize, hops: &[Option<usize>], node: usize, targets: &[usize]) -> Option<usize>
    ensures { result ≡ spec.next_hop goal hops.now node targets.now }
{
    match hop_of(hops, node) {
        Some(hop) => Some(hop),
        None => first_leading(goal, hops, targets).copied(),
    }
}

/// The next round.
fn next_hops(
    alloc: Global,
    goal: usize,
    graph: &[Seq<usize>],
    hops: &[Option<usize>],
) -> Result<Vec<Option<usize>>, AllocError>
    ensures { IfOk result (λ next. next.items ≡ spec.next_hops goal graph.now hops.now) }
{
    let mut next = Vec::new(alloc);
    for (node, targets) in graph.iter().enumerate() {
        next.push(next_hop(goal, hops, node, targets.as_slice()))?;
    }
    Ok(next)
}

/// Rounds until the way of the goal back to itself is known, as many at most as there are nodes.
fn hops_to(
    alloc: Global,
    goal: usize,
    graph: &[Seq<usize>],
) -> Result<Vec<Option<usize>>, AllocError>
    ensures { IfOk result (λ hops. hops.items ≡ spec.hops_to goal graph.now) }
{
    let mut hops = vec![in alloc; None; graph.len()]?;
    for _ in 0..graph.len() {
        if hop_of(hops.as_slice(), goal).is_some() {
            return Ok(hops);
        }
        hops = next_hops(alloc, goal, graph, hops.as_slice())?;
    }
    Ok(hops)
}

/// The goal, and the nodes on its way back to itself.
fn way_back(alloc: Global, goal: usize, hops: &[Option<usize>]) -> Result<Seq<usize>, AllocError>
    ensures { IfOk result (λ nodes.
        nodes ≡ goal ∷ spec.way goal hops.now (length hops.now) goal) }
{
    let mut nodes = Seq::empty(alloc);
    nodes.push(goal)?;
    let mut last = goal;
    for _ in 0..hops.len() {
        let Some(next) = hop_of(hops, last) else {
            return Ok(nodes);
        };
        nodes.push(next)?;
        if next == goal {
            return Ok(nodes);
        }
        last = next;
    }
    Ok(nodes)
}

fn found(alloc: Global, graph: &[Seq<usize>], node: usize) -> Result<Option<Seq<usize>>, AllocError>
    ensures { IfOk result (λ cycle. cycle ≡ spec.cycle_through graph.now node) }
{
    let hops = hops_to(alloc, node, graph)?;
    match hop_of(hops.as_slice(), node) {
        Some(_) => Ok(Some(way_back(alloc, node, hops.as_slice())?)),
        None => Ok(None),
    }
}

/// A cycle through a node of a graph, if it lies on one: nodes of which the first and the last are this one, with an edge from each to
/// the next.
///
/// For n nodes with e edges it takes n + e steps for each node of the cycle, or n (n + e) steps if there is none.
pub fn cycle_through(
    alloc: Global,
    graph: &[Seq<usize>],
    node: usize,
) -> Result<Option<Seq<usize>>, AllocError>
    ensures is { IfOk result (λ cycle. cycle ≡ spec.cycle_through graph.now node) }
    ensures cycle { IfOk result (spec.IsCycleThrough graph.now node) }
{
    let cycle = found(alloc, graph, node)?;
    Ok(cycle)
}
