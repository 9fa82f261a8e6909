//! The declared types as nodes of a graph.
ghost use Rattle.std.specs.Prelude.{◌≡◌, ◌++◌, option_to_list, IfOk, OnOk};
ghost use Rattle.std.specs.List.{filter_map};
ghost use Rattle.cdi_types.specs.Index.{place_in};
ghost use Rattle.cdi_types.specs.Nodes as spec;
ghost use Rattle.cdi_types.specs.Subtype.{direct_supertypes, supertypes_of};

use crate::declaration::TypeDeclaration;
use crate::index::TypeIndex;
use cdi_base::{Name, Seq};
use std::alloc::{AllocError, Global};

/// Adds the edge to a name, if it is declared.
fn add_edge(index: &TypeIndex, name: Name, row: &mut Seq<usize>) -> Result<(), AllocError>
    ensures { OnOk result (row.new ≡ row.old ++ option_to_list (place_in index.now name)) }
{
    if let Some(place) = index.place(name) {
        row.push(place)?;
    }
    Ok(())
}

/// Adds the edges to what a declaration names directly above it.
fn add_edges(
    index: &TypeIndex,
    declared: &TypeDeclaration,
    row: &mut Seq<usize>,
) -> Result<(), AllocError>
    ensures { OnOk result (row.new
        ≡ row.old ++ filter_map (place_in index.now) (direct_supertypes declared.now)) }
{
    if let Some(name) = declared.superclass {
        add_edge(index, name, row)?;
    }
    for name in declared.interfaces.as_slice() {
        add_edge(index, *name, row)?;
    }
    Ok(())
}

/// The edges of a name: to what all its declarations name directly above it.
fn edges_of(
    alloc: Global,
    index: &TypeIndex,
    types: &[TypeDeclaration],
    name: Name,
) -> Result<Seq<usize>, AllocError>
    ensures { IfOk result
        (λ row. row ≡ filter_map (place_in index.now) (supertypes_of types.now name)) }
{
    let mut row = Seq::empty(alloc);
    for declared in types {
        if declared.name == name {
            add_edges(index, declared, &mut row)?;
        }
    }
    Ok(row)
}

/// The graph of the types, each declaration under its index. An edge leads to the first declaration of a name.
pub(crate) fn graph_of(
    alloc: Global,
    index: &TypeIndex,
    types: &[TypeDeclaration],
) -> Result<Seq<Seq<usize>>, AllocError>
    ensures { IfOk result (λ graph. graph ≡ spec.graph_of (place_in index.now) types.now) }
{
    let mut graph = Seq::empty(alloc);
    for declared in types {
        graph.push(edges_of(alloc, index, types, declared.name)?)?;
    }
    Ok(graph)
}

/// The graph of some types: each declaration under its index, with an edge to the first declaration of each name that stands directly
/// above its own.
pub fn supertype_graph(
    alloc: Global,
    types: &[TypeDeclaration],
) -> Result<Seq<Seq<usize>>, AllocError>
    ensures { IfOk result (λ graph. graph ≡ spec.graph_of (spec.place_of types.now) types.now) }
{
    let index = TypeIndex::build(alloc, types)?;
    graph_of(alloc, &index, types)
}
