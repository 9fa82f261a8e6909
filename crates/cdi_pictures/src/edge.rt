//! Edges of a picture.
ghost use Rattle.std.specs.Prelude.{◌≡◌, ◌++◌, string_bytes, OnOk};
ghost use Rattle.cdi_pictures.specs.Edges as spec;

use std::alloc::{AllocError, Global};

/// How an edge is drawn.
#[derive(Clone, Copy, Debug, PartialEq, Eq)]
pub(crate) enum Look {
    Plain,
    Dotted,
    Dashed,
    Red,
}

/// An edge from one node to another, with a label.
#[derive(Clone, Copy)]
pub(crate) struct Edge<'a> {
    pub(crate) source: &'a str,
    pub(crate) target: &'a str,
    pub(crate) label: &'a str,
    pub(crate) look: Look,
}

impl Look {
    fn text(self) -> &'static str
        ensures { result.now ≡ spec.look_text self }
    {
        match self {
            Look::Plain => "",
            Look::Dotted => ", style=dotted",
            Look::Dashed => ", style=dashed",
            Look::Red => ", color=red",
        }
    }
}

/// Adds the line of an edge.
pub(crate) fn add_edge(alloc: Global, edge: &Edge<'_>, text: &mut String) -> Result<(), AllocError>
    ensures { OnOk result (string_bytes text.new ≡ string_bytes text.old ++ spec.line_of edge.now) }
{
    let source = edge.source;
    let target = edge.target;
    let label = edge.label;
    let look = edge.look.text();
    let line = format!(in alloc; "  \"{source}\" -> \"{target}\" [label=\"{label}\"{look}];\n")?;
    text.push_str(&line)
}
