//! Graphs with each edge the other way round.
ghost use Rattle.std.specs.Prelude.{◌≡◌, ◌<◌, [], length, replicate, All, Contains, IsTrue, OnOk, IfOk};
ghost use Rattle.cdi_paths.specs.Graph.{IsGraph};
ghost use Rattle.cdi_paths.specs.Reversed.{HasAlso, HasSource, IsReversed};

use cdi_base::Seq;
use std::alloc::{AllocError, Global};

/// So many rows, with nothing in them.
fn empty_rows(alloc: Global, count: usize) -> Result<Vec<Seq<usize>>, AllocError>
    ensures { IfOk result (λ rows. rows.items ≡ replicate count []) }
{
    let mut rows = Vec::new(alloc);
    for _ in 0..count {
        rows.push(Seq::empty(alloc))?;
    }
    Ok(rows)
}

/// Whether a row ends in a node.
fn ends_in(row: &[usize], node: usize) -> bool
    ensures { IsTrue result → Contains row.now node }
{
    match row.last() {
        Some(last) => *last == node,
        None => false,
    }
}

/// Puts a node into a row, unless it stands there last: so an edge that is repeated takes no more memory.
fn add_to_row(row: &mut Seq<usize>, node: usize) -> Result<(), AllocError>
    ensures { OnOk result (HasAlso node row.old row.new) }
{
    if !ends_in(row.as_slice(), node) {
        row.push(node)?;
    }
    Ok(())
}

/// Puts a node into the row of each of its targets.
fn add_source(rows: &mut [Seq<usize>], node: usize, targets: &[usize]) -> Result<(), AllocError>
    requires { All (λ a. a < length rows.old) targets.now }
    ensures { OnOk result (HasSource node targets.now rows.old rows.new) }
{
    for target in targets {
        add_to_row(&mut rows[*target], node)?;
    }
    Ok(())
}

/// The graph with each edge the other way round, in as many steps as it has nodes and edges.
pub(crate) fn reversed(alloc: Global, graph: &[Seq<usize>]) -> Result<Vec<Seq<usize>>, AllocError>
    requires { IsGraph graph.now }
    ensures { IfOk result (λ rows. IsReversed graph.now rows.items) }
{
    let mut rows = empty_rows(alloc, graph.len())?;
    for (node, targets) in graph.iter().enumerate() {
        add_source(rows.as_mut_slice(), node, targets.as_slice())?;
    }
    Ok(rows)
}
