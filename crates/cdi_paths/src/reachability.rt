//! The table of what reaches what.
//!
//! It is made by Warshall's algorithm over rows of bits: for each node, each row that has its bit is joined with its row.
ghost use Rattle.std.specs.Prelude.{◌≡◌, ◌<◌, ◌*◌, ◌||◌, ◌&&◌, ◌↔◌, ℕ, length, vec_len, All, nat_eq, IsTrue, IfOk};
ghost use Rattle.std.specs.List.{list_any};
ghost use Rattle.cdi_paths.specs.BitRow.{has_bit};
ghost use Rattle.cdi_paths.specs.Graph.{IsGraph, Path, ProperPath};
ghost use Rattle.cdi_paths.specs.Rounds.{is_edge, has_bit_at, IsTable};

use crate::bit_row::BitRow;
use cdi_base::Seq;
use std::alloc::{AllocError, Global};
use std::marker::Model;

/// A finite directed graph with the table of its paths. Contracts see the graph: for each node, by its number, the nodes that its
/// edges lead to, in any order and perhaps repeated. The numbers that have no row are nodes without edges.
///
/// For n nodes the table has about n² bits, and takes at most n³ / 64 steps to make; a question takes constant time.
#[derive(Drop)]
pub struct Reachability {
    graph: Seq<Seq<usize>>,
    rows: Vec<BitRow>,
}

impl Model for Reachability {
    ghost use Rattle.std.specs.Prelude.{ℕ, List};
    ghost use Rattle.cdi_paths.specs.Rounds.{IsTable};

    ghost Value = { List (List ℕ) };

    ghost view = { λ r. r.graph };

    ghost invariant = { λ r. IsTable r.graph r.rows.items };
}

/// The row of a node in the first round: its edges.
fn row_of(alloc: Global, targets: &[usize], width: usize) -> Result<BitRow, AllocError>
    requires { All (λ b. b < width * 64) targets.now }
    ensures len { IfOk result (λ row. length row ≡ width) }
    ensures bits { IfOk result
        (λ row. (b : ℕ) → has_bit row b ≡ list_any (nat_eq b) targets.now) }
{
    let mut row = BitRow::new(alloc, width)?;
    for target in targets {
        row.put(*target);
    }
    Ok(row)
}

/// The first round: the edges.
fn edges(alloc: Global, graph: &[Seq<usize>], width: usize) -> Result<Vec<BitRow>, AllocError>
    requires { All (All (λ b. b < width * 64)) graph.now }
    ensures len { IfOk result (λ rows. vec_len rows ≡ length graph.now) }
    ensures width { IfOk result (λ rows. All (λ row. length row ≡ width) rows.items) }
    ensures bits { IfOk result
        (λ rows. (a b : ℕ) → has_bit_at rows.items a b ≡ is_edge graph.now a b) }
{
    let mut rows = Vec::new(alloc);
    for targets in graph {
        rows.push(row_of(alloc, targets.as_slice(), width)?)?;
    }
    Ok(rows)
}

/// The next round: the paths through one node more, whose row is given.
fn go_through(rows: &mut [BitRow], node: usize, inner: &BitRow)
    requires { All (λ row. length row ≡ length inner.now) rows.old }
    ensures width { All (λ row. length row ≡ length inner.now) rows.new }
    ensures bits { (a b : ℕ) → has_bit_at rows.new a b
        ≡ (has_bit_at rows.old a b || (has_bit_at rows.old a node && has_bit inner.now b)) }
{
    for row in rows.iter_mut() {
        if row.has(node) {
            row.join(inner);
        }
    }
}

/// The last round: the paths of one edge or more.
fn rows_of(alloc: Global, graph: &[Seq<usize>]) -> Result<Vec<BitRow>, AllocError>
    requires { IsGraph graph.now }
    ensures { IfOk result (λ rows. IsTable graph.now rows.items) }
{
    let mut rows = edges(alloc, graph, graph.len() / 64 + 1)?;
    for node in 0..graph.len() {
        let inner = rows[node].copy(alloc)?;
        go_through(rows.as_mut_slice(), node, &inner);
    }
    Ok(rows)
}

/// What a table says of two nodes.
fn in_rows(rows: &[BitRow], from: usize, to: usize) -> bool
    ensures { result ≡ has_bit_at rows.now from to }
{
    match rows.get(from) {
        Some(row) => row.has(to),
        None => false,
    }
}

impl Reachability {
    /// The table of a graph, each edge of which leads to a node that has a row.
    pub fn build(alloc: Global, graph: Seq<Seq<usize>>) -> Result<Reachability, AllocError>
        requires { IsGraph graph }
        ensures { IfOk result (λ table. table ≡ graph) }
    {
        let rows = rows_of(alloc, graph.as_slice())?;
        Ok(Reachability { graph, rows })
    }

    /// The graph: for each node the nodes that its edges lead to.
    pub fn graph(&self) -> &[Seq<usize>]
        ensures { result.now ≡ self.now }
    {
        self.graph.as_slice()
    }

    /// Whether a path of one edge or more leads from a node to another, or back to it.
    pub fn reaches_properly(&self, from: usize, to: usize) -> bool
        ensures { IsTrue result ↔ ProperPath self.now from to }
    {
        in_rows(self.rows.as_slice(), from, to)
    }

    /// Whether a node lies on a cycle, an edge to itself included.
    pub fn is_on_cycle(&self, node: usize) -> bool
        ensures { IsTrue result ↔ ProperPath self.now node node }
    {
        self.reaches_properly(node, node)
    }
}
