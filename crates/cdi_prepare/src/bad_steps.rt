//! The first step that is none, of the first script that isn't one.
ghost use Rattle.std.specs.Prelude.{◌≡◌, IfOk, not};
ghost use Rattle.std.specs.List.{position_from};
ghost use Rattle.serde_json.specs.View.{view};
ghost use Rattle.cdi_script.specs.Form.{is_script, is_step};
ghost use Rattle.cdi_prepare.specs.BadStep as spec;

use crate::hint::Mistake;
use cdi_base::Text;
use cdi_deployment::{Deployment, Script};
use cdi_form_mistakes::step_mistake;
use cdi_problems::name_text;
use cdi_script::{MAX_STEPS, are_steps, is_step};
use serde_json::Value as Json;
use std::alloc::{AllocError, Global};

fn is_script(value: &Json) -> bool
    ensures { result ≡ is_script (view value.now) }
{
    match value {
        Json::Array(items) => {
            let items = items.as_slice();
            are_steps(items) && items.len() <= MAX_STEPS
        }
        _ => false,
    }
}

fn bad_item(items: &[Json]) -> Option<usize>
    ensures { result ≡ position_from (λ item. not (is_step (view item))) 0 items.now }
{
    items.iter().position(|item| !is_step(item))
}

/// The index of the first script that isn't one.
fn no_script(scripts: &[Script]) -> Option<usize>
    ensures { result ≡ position_from (λ s. not (is_script s.steps)) 0 scripts.now }
{
    scripts
        .iter()
        .position(|script| !is_script(script.steps.as_value()))
}

/// The index of the first item of an array that is no step, if there is one.
fn bad_step(value: &Json) -> Option<usize>
    ensures { result ≡ spec.bad_step (view value.now) }
{
    match value {
        Json::Array(items) => bad_item(items.as_slice()),
        _ => None,
    }
}

/// What is wrong with the item at an index of the steps of a script.
fn mistake_at(
    alloc: Global,
    name: &str,
    index: usize,
    steps: &Json,
    step: usize,
) -> Result<Option<Mistake>, AllocError>
    ensures { IfOk result
        (λ m. m ≡ spec.mistake_at name.now index (view steps.now) step) }
{
    let Some(value) = steps.get(step) else {
        return Ok(None);
    };
    Ok(Some(Mistake::Step {
        path: Text::new(format!(in alloc; "/scripts/{index}/steps/{step}")?),
        script: Text::from_str(alloc, name)?,
        mistake: step_mistake(alloc, value)?,
    }))
}

/// What is wrong with the first step that is none of the script with this index.
fn script_mistake(
    alloc: Global,
    deployment: &Deployment,
    index: usize,
) -> Result<Option<Mistake>, AllocError>
    ensures { IfOk result (λ m. m ≡ spec.script_mistake deployment.now index) }
{
    let Some(script) = deployment.scripts.get(index) else {
        return Ok(None);
    };
    let steps = script.steps.as_value();
    let Some(step) = bad_step(steps) else {
        return Ok(None);
    };
    let name = name_text(&deployment.names, script.name);
    mistake_at(alloc, name, index, steps, step)
}

/// What is wrong with the first step that is none, of the first script of a deployment that isn't one. There is no such step
/// where that script has too many.
pub(crate) fn first_bad_step(
    alloc: Global,
    deployment: &Deployment,
) -> Result<Option<Mistake>, AllocError>
    ensures { IfOk result (λ m. m ≡ spec.first_bad_step deployment.now) }
{
    match no_script(deployment.scripts.as_slice()) {
        Some(index) => script_mistake(alloc, deployment, index),
        None => Ok(None),
    }
}
