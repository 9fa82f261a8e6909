//! The enabled interceptors of a picture.
ghost use Rattle.std.specs.Prelude.{◌≡◌, ◌++◌, string_bytes, IfOk, OnOk};
ghost use Rattle.cdi_pictures.specs.Interceptors as spec;

use crate::edge::{Edge, Look, add_edge};
use cdi_base::{Name, Names};
use cdi_beans::EnabledInterceptor;
use cdi_problems::name_text;
use std::alloc::{AllocError, Global};

/// The node of an interceptor, with its number.
fn node_line(alloc: Global, name: &str, number: usize) -> Result<String, AllocError>
    ensures { IfOk result (λ line. string_bytes line ≡ spec.node_line name.now number) }
{
    format!(in alloc;
        "  \"{name}\" [label=\"{number}. {name}\", shape=component, style=solid, color=black];\n"
    )
}

/// Adds the edge from the interceptor before, if there is one.
fn add_then(
    alloc: Global,
    names: &Names,
    before: Option<Name>,
    name: Name,
    text: &mut String,
) -> Result<(), AllocError>
    ensures { OnOk result (string_bytes text.new ≡ string_bytes text.old
        ++ spec.then_line names.now before name) }
{
    match before {
        Some(before) => {
            let edge = Edge {
                source: name_text(names, before),
                target: name_text(names, name),
                label: "then",
                look: Look::Dashed,
            };
            add_edge(alloc, &edge, text)
        }
        None => Ok(()),
    }
}

fn add_interceptor(
    alloc: Global,
    names: &Names,
    number: usize,
    before: Option<Name>,
    name: Name,
    text: &mut String,
) -> Result<(), AllocError>
    ensures { OnOk result (string_bytes text.new ≡ string_bytes text.old
        ++ spec.interceptor_text names.now number before name) }
{
    let node = node_line(alloc, name_text(names, name), number)?;
    text.push_str(&node)?;
    add_then(alloc, names, before, name, text)
}

/// Adds the enabled interceptors in their order (Jakarta Interceptors 2.1, *Interceptor Ordering*), each with its number, and with an
/// edge from the one before.
pub(crate) fn add_interceptors(
    alloc: Global,
    names: &Names,
    interceptors: &[EnabledInterceptor],
    text: &mut String,
) -> Result<(), AllocError>
    ensures { OnOk result (string_bytes text.new ≡ string_bytes text.old
        ++ spec.interceptors_text names.now interceptors.now) }
{
    let mut before = None;
    for (index, interceptor) in interceptors.iter().enumerate() {
        add_interceptor(alloc, names, index + 1, before, interceptor.name, text)?;
        before = Some(interceptor.name);
    }
    Ok(())
}
