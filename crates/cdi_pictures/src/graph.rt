//! The picture of a deployment.
ghost use Rattle.std.specs.Prelude.{◌≡◌, ◌++◌, string_bytes, IfOk, OnOk};
ghost use Rattle.std.specs.Option.{option_copied};
ghost use Rattle.cdi_pictures.specs.Pictures as spec;
ghost use Rattle.cdi_pictures.specs.Subjects.{pictured_of};
ghost use Rattle.cdi_problems.specs.Elements.{shown};

use crate::asker::Drawing;
use crate::beans::add_beans;
use crate::events::add_observers;
use crate::interceptors::add_interceptors;
use crate::points::add_points;
use crate::problems::add_problems;
use crate::producers::add_producers;
use crate::subject::Pictured;
use cdi_problems::{Element, elements_of};
use std::alloc::{AllocError, Global};

const HEAD: &str =
    "digraph \"cdi\" {\n  rankdir=LR;\n  node [shape=box, style=dashed, color=gray];\n";

/// Adds what the tables show: the enabled beans, the points, the interceptors.
fn add_tables(
    alloc: Global,
    drawing: &Drawing<'_>,
    elements: &[Element<'_>],
    text: &mut String,
) -> Result<(), AllocError>
    ensures { OnOk result (string_bytes text.new ≡ string_bytes text.old
        ++ spec.tables_text drawing.now.names.now drawing.now.problems.now (shown elements.now)
        drawing.now.tables.now) }
{
    let names = drawing.names;
    let tables = drawing.tables;
    add_beans(alloc, names, &tables.resolver, text)?;
    add_points(alloc, drawing, elements, text)?;
    add_interceptors(alloc, names, tables.chains.interceptors(), text)
}

/// Adds what the tables of a deployment show, if there are any.
fn add_resolved(
    alloc: Global,
    subject: &Pictured<'_>,
    elements: &[Element<'_>],
    text: &mut String,
) -> Result<(), AllocError>
    ensures { OnOk result (string_bytes text.new ≡ string_bytes text.old
        ++ spec.resolved_text subject.now.deployment.now.names subject.now.problems.now
        (shown elements.now) (option_copied subject.now.tables)) }
{
    match subject.tables {
        Some(tables) => {
            let drawing = Drawing {
                names: &subject.deployment.names,
                tables,
                problems: subject.problems,
            };
            add_tables(alloc, &drawing, elements, text)
        }
        None => Ok(()),
    }
}

/// The picture of a deployment, as a graph in Graphviz's language, each statement on a line. Each enabled bean is a node with its
/// scope (Jakarta CDI 4.0, *Enabled and disabled beans*), and so is each enabled interceptor, with its number in their order
/// (Jakarta Interceptors 2.1, *Interceptor Ordering*). Edges go from what has an injection point to the beans that are left for it
/// (*Typesafe resolution*), from a class to what it produces, and from an event to the classes that observe it. Each problem is a
/// note at what has it, and the edges of a point that has one are red. All stands in the order of the deployment.
pub fn picture(alloc: Global, subject: &Pictured<'_>) -> Result<String, AllocError>
    ensures { IfOk result (λ text.
        string_bytes text ≡ spec.picture (pictured_of subject.now)) }
{
    let names = &subject.deployment.names;
    let elements = elements_of(alloc, subject.deployment)?;
    let mut text = String::from_str(alloc, HEAD)?;
    add_resolved(alloc, subject, elements.as_slice(), &mut text)?;
    add_producers(alloc, names, elements.as_slice(), &mut text)?;
    add_observers(alloc, names, elements.as_slice(), &mut text)?;
    add_problems(alloc, names, subject.problems, &mut text)?;
    text.push_str("}\n")?;
    Ok(text)
}
