//! What is told of a script that names something that isn't there.
ghost use Rattle.std.specs.Prelude.{◌≡◌, ◌++◌, string_bytes, IfOk, OnOk};
ghost use Rattle.std.specs.List.{flat_map};
ghost use Rattle.std.specs.Option.{option_copied};
ghost use Rattle.cdi_body_check.specs.Sites.{body_of, shown};
ghost use Rattle.cdi_problem_hints.specs.Scripts as spec;

use crate::at::sites_at;
use crate::sentence::suggestion;
use crate::subject::Subject;
use cdi_base::{Name, Place};
use cdi_body_check::BodySite;
use cdi_deployment::Deployment;
use cdi_name_uses::{ScriptNames, StepGroup, StepName, first_unknown, known_names};
use cdi_problems::name_text;
use std::alloc::{AllocError, Global};

fn group_word(group: StepGroup) -> &'static str
    ensures { result.now ≡ spec.group_word group }
{
    match group {
        StepGroup::Field => "field",
        StepGroup::InjectedField => "injected field",
        StepGroup::Method => "method",
        StepGroup::Class => "class",
        StepGroup::Type => "type",
        StepGroup::Exception => "exception",
    }
}

/// What is told of a name that a step uses and that isn't declared.
fn step_sentence(
    alloc: Global,
    deployment: &Deployment,
    script: Name,
    used: &StepName,
) -> Result<String, AllocError>
    ensures { IfOk result (λ text.
        string_bytes text ≡ spec.step_sentence deployment.now script used.now) }
{
    let names = &deployment.names;
    let step = used.step;
    let script = name_text(names, script);
    let group = group_word(used.group);
    let name = name_text(names, used.name);
    let known = known_names(alloc, deployment, used.group)?;
    let meant = suggestion(alloc, names, known.as_slice(), used.name)?;
    format!(in alloc; "; step {step} of script {script}: the {group} {name} isn't declared{meant}")
}

/// What is told of a script, by its first name that isn't declared.
fn script_sentence(
    alloc: Global,
    deployment: &Deployment,
    script: Name,
    unknown: &Option<StepName>,
) -> Result<String, AllocError>
    ensures { IfOk result (λ text.
        string_bytes text ≡ spec.script_sentence deployment.now script unknown.now) }
{
    match unknown {
        Some(used) => step_sentence(alloc, deployment, script, used),
        None => {
            let script = name_text(&deployment.names, script);
            format!(in alloc; "; the script is {script}")
        }
    }
}

/// The first script of a name.
fn script_named(scripts: &[ScriptNames], name: Name) -> Option<&ScriptNames>
    ensures { option_copied result ≡ spec.script_named scripts.now name }
{
    scripts.iter().find(|script| script.script == name)
}

/// The names that the first script of a name uses.
fn names_under(scripts: &[ScriptNames], name: Name) -> &[StepName]
    ensures { result.now ≡ spec.names_under scripts.now name }
{
    match script_named(scripts, name) {
        Some(script) => script.used.as_slice(),
        None => &[],
    }
}

/// Adds what is told of the script that is a body.
fn add_script(
    alloc: Global,
    subject: &Subject<'_>,
    body: Name,
    hint: &mut String,
) -> Result<(), AllocError>
    ensures { OnOk result (string_bytes hint.new ≡ string_bytes hint.old
        ++ spec.script_text subject.now.deployment.now subject.now.scripts.now body) }
{
    let used = names_under(subject.scripts, body);
    let unknown = first_unknown(alloc, subject.deployment, used)?;
    let sentence = script_sentence(alloc, subject.deployment, body, &unknown)?;
    hint.push_str(&sentence)
}

fn add_each(
    alloc: Global,
    subject: &Subject<'_>,
    sites: &[BodySite<'_>],
    hint: &mut String,
) -> Result<(), AllocError>
    ensures { OnOk result (string_bytes hint.new ≡ string_bytes hint.old
        ++ flat_map
        (λ s. spec.script_text subject.now.deployment.now subject.now.scripts.now (body_of s))
        (shown sites.now)) }
{
    for site in sites {
        add_script(alloc, subject, site.body(), hint)?;
    }
    Ok(())
}

/// Adds what is told of the scripts that are the bodies at a place.
pub(crate) fn add_scripts(
    alloc: Global,
    subject: &Subject<'_>,
    place: &Option<Place>,
    hint: &mut String,
) -> Result<(), AllocError>
    ensures { OnOk result (string_bytes hint.new ≡ string_bytes hint.old
        ++ spec.scripts_text subject.now.deployment.now subject.now.scripts.now place.now) }
{
    let sites = sites_at(subject, place);
    add_each(alloc, subject, sites, hint)
}
