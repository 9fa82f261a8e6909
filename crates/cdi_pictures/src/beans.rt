//! The beans of a picture.
ghost use Rattle.std.specs.Prelude.{◌≡◌, ◌++◌, string_bytes, IfOk, OnOk};
ghost use Rattle.cdi_pictures.specs.Beans as spec;
ghost use Rattle.cdi_resolve.specs.Filters as filters;

use cdi_base::{Names, Scope};
use cdi_beans::Bean;
use cdi_candidates::place_of;
use cdi_problems::PlaceText;
use cdi_resolve::enabled_bean::enabled_of;
use cdi_resolve::{EnabledBean, Resolver};
use std::alloc::{AllocError, Global};

fn scope_text(scope: Scope) -> &'static str
    ensures { result.now ≡ spec.scope_text scope }
{
    match scope {
        Scope::ApplicationScoped => "ApplicationScoped",
        Scope::SessionScoped => "SessionScoped",
        Scope::RequestScoped => "RequestScoped",
        Scope::Dependent => "Dependent",
    }
}

/// The node of a bean, with its place and its scope.
fn node_line(alloc: Global, place: &str, scope: &str) -> Result<String, AllocError>
    ensures { IfOk result (λ line. string_bytes line ≡ spec.node_line place.now scope.now) }
{
    format!(in alloc; "  \"{place}\" [label=\"{place}\\n{scope}\", style=solid, color=black];\n")
}

fn bean_line(alloc: Global, names: &Names, bean: &Bean) -> Result<String, AllocError>
    ensures { IfOk result (λ line. string_bytes line ≡ spec.bean_line names.now bean.now) }
{
    let place = place_of(bean);
    let place = PlaceText {
        names,
        place: &place,
    };
    let place = format!(in alloc; "{place}")?;
    node_line(alloc, &place, scope_text(bean.scope))
}

fn add_each(
    alloc: Global,
    names: &Names,
    beans: &[EnabledBean<'_>],
    text: &mut String,
) -> Result<(), AllocError>
    ensures { OnOk result (string_bytes text.new ≡ string_bytes text.old
        ++ spec.beans_text names.now beans.now) }
{
    for bean in beans {
        let line = bean_line(alloc, names, bean.bean())?;
        text.push_str(&line)?;
    }
    Ok(())
}

/// Adds the enabled beans (Jakarta CDI 4.0, *Enabled and disabled beans*), each with its scope.
pub(crate) fn add_beans(
    alloc: Global,
    names: &Names,
    resolver: &Resolver,
    text: &mut String,
) -> Result<(), AllocError>
    ensures { OnOk result (string_bytes text.new ≡ string_bytes text.old
        ++ spec.beans_text names.now (filters.enabled_of resolver.now)) }
{
    let enabled = enabled_of(alloc, resolver.beans(), resolver.flags())?;
    add_each(alloc, names, enabled.as_slice(), text)
}
