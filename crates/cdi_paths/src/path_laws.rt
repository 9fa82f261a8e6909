//! Laws of paths, over the definitions alone.
ghost use Rattle.std.specs.Prelude.{◌≡◌, ◌<◌, ℕ, List, Contains};
ghost use Rattle.cdi_paths.specs.Graph.{targets_of, IsGraph, IsAcyclic, Path, ProperPath};
ghost use Rattle.cdi_paths.specs.Height.{height};

/// Paths join.
pub fn law_paths_join()
    ensures { (graph : List (List ℕ)) (a b c : ℕ)
        → Path graph a b → Path graph b c → Path graph a c }
{}

/// In a graph without a cycle two nodes that reach each other are one.
pub fn law_one_way()
    ensures { (graph : List (List ℕ)) → IsAcyclic graph
        → (a b : ℕ) → Path graph a b → Path graph b a → a ≡ b }
{}

/// In a graph without a cycle each edge leads to a node of less height, so that a walk along edges ends.
pub fn law_walks_end()
    ensures { (graph : List (List ℕ)) → IsGraph graph → IsAcyclic graph
        → (a b : ℕ) → Contains (targets_of graph a) b → height graph b < height graph a }
{}
