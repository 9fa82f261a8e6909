//! What is told of a deployment and its bodies, by the words of a run behind the word `jobs`.
//!
//! | Words | The deployment and its bodies |
//! |---|---|
//! | `scripts` | its scripts are the bodies |
//! | `whole` | the same |
//! | `counting COUNT` | its one body is `up`: it counts the field `n` so many times, calls itself with one less than it was called with unless that was 0, and then gives the field |
//!
//! A depth and a number of ticks may stand behind each of them, as the limits. Before these the word `last` may stand: of
//! several candidates the last one is then picked each time, else the first. What is told is why the deployment isn't accepted: how
//! many names it has, and the kind of each problem; or else what its runtime answers to each line of the input, as the table of the
//! module `jobs` says.
ghost use Rattle.std.specs.Prelude.{◌≡◌, ◌<◌, true, IfOk};
ghost use Rattle.cdi_bodies.specs.Shape.{in_shape};
ghost use Rattle.cdi_script.specs.Listed.{shape_of};
ghost use Rattle.cdi_tests_calls.specs.Plain.{plain_shape};

use crate::counting::Counting;
use crate::runtimes::{Asking, Order, told_by};
use cdi_base::{Act, Fields};
use cdi_bodies::{Bodies, Body, Choice, Chooser, View};
use cdi_container::accept;
use cdi_deployment::Deployment;
use cdi_machine::Registered;
use cdi_prepare::{NamedScript, Prepared, prepare};
use cdi_script::Script;
use cdi_tests_player::limits::limits_of;
use std::alloc::{AllocError, Global};

/// What a script does next.
#[tactic(auto, using(cdi_script::proofs::Within::lies))]
fn next_of(alloc: Global, script: &Script, fields: &Fields, view: &View) -> Result<Act, AllocError>
    ensures { IfOk result (λ act. in_shape (shape_of script.now) view.now act ≡ true) }
{
    script.next(alloc, fields, view)
}

/// The candidate that is picked in an order.
fn picked(order: Order, count: u32) -> u32
    requires { 0 < count }
    ensures { result < count }
{
    match order {
        Order::First => 0,
        Order::Last => count - 1,
    }
}

/// What is told of a deployment with its scripts.
#[tactic(auto, using(crate::proofs::Chosen::drives_with))]
fn report_of_scripts(
    alloc: Global,
    deployment: Deployment,
    scripts: Vec<NamedScript>,
    asking: Asking,
) -> Result<String, AllocError> {
    let mut bodies = Bodies::new(alloc);
    for named in scripts {
        let NamedScript { name, script } = named;
        let shape = script.shape_of(alloc)?;
        let body: Body = Box::new(
            alloc,
            move |fields: &Fields, view: &View| -> Result<Act, AllocError>
                ensures { IfOk result (λ act. in_shape (shape_of script) view.now act ≡ true) }
            { next_of(alloc, &script, fields, view) },
        )?;
        if bodies.add(name, shape, body).is_err() {
            return Err(AllocError);
        }
    }
    let accepted = accept(alloc, deployment, &bodies);
    let order = asking.order;
    let choice: Choice = Box::new(
        alloc,
        move |count: u32, _entries: u64| -> u32
            requires { 0 < count }
            ensures { result < count }
        { picked(order, count) },
    )?;
    let chooser = Chooser::new(choice);
    told_by(alloc, accepted, Registered { bodies, chooser }, asking)
}

/// What is told of a deployment with a body that counts so many times.
#[tactic(auto, using(crate::proofs::Chosen::drives_with))]
fn report_of_counting(
    alloc: Global,
    deployment: Deployment,
    sets: usize,
    asking: Asking,
) -> Result<String, AllocError> {
    let counting = Counting::new(alloc, &deployment.names, sets);
    let shape = counting.shape()?;
    let body: Body = Box::new(
        alloc,
        move |fields: &Fields, view: &View| -> Result<Act, AllocError>
            ensures { IfOk result (λ act.
                in_shape (plain_shape counting.field counting.method) view.now act ≡ true) }
        { counting.next(fields, view) },
    )?;
    let mut bodies = Bodies::new(alloc);
    if bodies.add(counting.method, shape, body).is_err() {
        return Err(AllocError);
    }
    let accepted = accept(alloc, deployment, &bodies);
    let order = asking.order;
    let choice: Choice = Box::new(
        alloc,
        move |count: u32, _entries: u64| -> u32
            requires { 0 < count }
            ensures { result < count }
        { picked(order, count) },
    )?;
    let chooser = Chooser::new(choice);
    told_by(alloc, accepted, Registered { bodies, chooser }, asking)
}

/// What is told of a deployment with its scripts, or with a body that counts so many times.
fn report_of_prepared(
    alloc: Global,
    prepared: Prepared,
    sets: Option<usize>,
    asking: Asking,
) -> Result<String, AllocError> {
    let Prepared {
        deployment,
        scripts,
    } = prepared;
    match sets {
        Some(sets) => report_of_counting(alloc, deployment, sets, asking),
        None => report_of_scripts(alloc, deployment, scripts, asking),
    }
}

fn report_of_bytes(
    alloc: Global,
    bytes: &[u8],
    sets: Option<usize>,
    asking: Asking,
) -> Result<String, AllocError> {
    match prepare(alloc, bytes) {
        Ok(prepared) => report_of_prepared(alloc, prepared, sets, asking),
        Err(_) => String::from_str(alloc, "not read\n"),
    }
}

/// What is asked under the limits that words give, or else under those of the program.
fn asking_of<'a>(words: &[&str], input: &'a str) -> Asking<'a> {
    let (order, limits) = match words {
        ["last", limits @ ..] => (Order::Last, limits),
        limits => (Order::First, limits),
    };
    Asking {
        limits: limits_of(limits).unwrap_or_default(),
        order,
        input,
    }
}

/// What is told by the words of a run.
pub(crate) fn report(
    alloc: Global,
    words: &[&str],
    bytes: &[u8],
    input: &str,
) -> Result<String, AllocError> {
    match words {
        ["counting", sets, limits @ ..] => {
            let asking = asking_of(limits, input);
            report_of_bytes(alloc, bytes, sets.parse().ok(), asking)
        }
        [_, limits @ ..] => report_of_bytes(alloc, bytes, None, asking_of(limits, input)),
        [] => Ok(String::new(alloc)),
    }
}
