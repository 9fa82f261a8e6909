//! What is told of a body that isn't the name of a script.
ghost use Rattle.std.specs.Prelude.{◌≡◌, ◌++◌, string_bytes, IfOk, OnOk};
ghost use Rattle.std.specs.List.{flat_map};
ghost use Rattle.cdi_body_check.specs.Sites.{body_of, shown};
ghost use Rattle.cdi_problem_hints.specs.Bodies as spec;

use crate::at::sites_at;
use crate::sentence::suggestion;
use crate::subject::Subject;
use cdi_base::{Name, Place, Seq};
use cdi_body_check::BodySite;
use cdi_name_uses::ScriptNames;
use cdi_problems::name_text;
use std::alloc::{AllocError, Global};

fn script_names(alloc: Global, scripts: &[ScriptNames]) -> Result<Seq<Name>, AllocError>
    ensures { IfOk result (λ names. names ≡ spec.script_names scripts.now) }
{
    let mut names = Seq::empty(alloc);
    for script in scripts {
        names.push(script.script)?;
    }
    Ok(names)
}

fn is_script(scripts: &[ScriptNames], name: Name) -> bool
    ensures { result ≡ spec.is_script scripts.now name }
{
    scripts.iter().any(|script| script.script == name)
}

fn body_sentence(alloc: Global, subject: &Subject<'_>, body: Name) -> Result<String, AllocError>
    ensures { IfOk result (λ text. string_bytes text
        ≡ spec.body_sentence subject.now.deployment.now subject.now.scripts.now body) }
{
    let names = &subject.deployment.names;
    let scripts = script_names(alloc, subject.scripts)?;
    let name = name_text(names, body);
    let meant = suggestion(alloc, names, scripts.as_slice(), body)?;
    format!(in alloc; "; no script is named {name}{meant}")
}

/// Adds what is told of a body, unless it is the name of a script.
fn add_body(
    alloc: Global,
    subject: &Subject<'_>,
    body: Name,
    hint: &mut String,
) -> Result<(), AllocError>
    ensures { OnOk result (string_bytes hint.new ≡ string_bytes hint.old
        ++ spec.body_text subject.now.deployment.now subject.now.scripts.now body) }
{
    if is_script(subject.scripts, body) {
        return Ok(());
    }
    let sentence = body_sentence(alloc, subject, body)?;
    hint.push_str(&sentence)
}

fn add_each(
    alloc: Global,
    subject: &Subject<'_>,
    sites: &[BodySite<'_>],
    hint: &mut String,
) -> Result<(), AllocError>
    ensures { OnOk result (string_bytes hint.new ≡ string_bytes hint.old
        ++ flat_map
        (λ s. spec.body_text subject.now.deployment.now subject.now.scripts.now (body_of s))
        (shown sites.now)) }
{
    for site in sites {
        add_body(alloc, subject, site.body(), hint)?;
    }
    Ok(())
}

/// Adds what is told of the bodies at a place that aren't the names of scripts.
pub(crate) fn add_unknown_bodies(
    alloc: Global,
    subject: &Subject<'_>,
    place: &Option<Place>,
    hint: &mut String,
) -> Result<(), AllocError>
    ensures { OnOk result (string_bytes hint.new ≡ string_bytes hint.old
        ++ spec.unknown_bodies_text subject.now.deployment.now subject.now.scripts.now place.now) }
{
    let sites = sites_at(subject, place);
    add_each(alloc, subject, sites, hint)
}
