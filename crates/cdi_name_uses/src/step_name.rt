//! The names that the steps of a script use.
ghost use Rattle.std.specs.Prelude.{◌≡◌, ◌++◌, IfOk, OnOk};
ghost use Rattle.std.specs.List.{flat_map, enumerate_from};
ghost use Rattle.cdi_name_uses.specs.StepNames as spec;

use cdi_base::{Name, Seq, Via};
use cdi_script::{Action, Script, Step};
use std::alloc::{AllocError, Global};

/// What a name in a step has to be.
#[derive(Clone, Copy)]
pub enum StepGroup {
    /// A field that holds a value, which a step sets.
    Field,
    /// An injected field, through which a step reaches another instance.
    InjectedField,
    /// A business method, which a step calls.
    Method,
    /// The class of an event.
    Class,
    /// The required type of a lookup.
    Type,
    Exception,
}

/// A name that a step uses, what it has to be, and the index of the step in its script.
#[derive(Clone, Copy)]
pub struct StepName {
    pub step: usize,
    pub group: StepGroup,
    pub name: Name,
}

/// The names that the steps of a script use, in their order.
#[derive(Drop)]
pub struct ScriptNames {
    pub script: Name,
    pub used: Seq<StepName>,
}

fn add_name(
    step: usize,
    group: StepGroup,
    name: Name,
    used: &mut Seq<StepName>,
) -> Result<(), AllocError>
    ensures { OnOk result (used.new ≡ used.old ++ spec.name_at step group name) }
{
    used.push(StepName { step, group, name })?;
    Ok(())
}

/// Adds the name of the injected field that a reference goes through, if it goes through one.
fn add_via(step: usize, via: Via, used: &mut Seq<StepName>) -> Result<(), AllocError>
    ensures { OnOk result (used.new ≡ used.old ++ spec.via_names step via) }
{
    match via {
        Via::Field(name) => add_name(step, StepGroup::InjectedField, name, used),
        Via::Param(_) | Via::Local(_) => Ok(()),
    }
}

fn add_action(step: usize, action: &Action, used: &mut Seq<StepName>) -> Result<(), AllocError>
    ensures { OnOk result (used.new ≡ used.old ++ spec.action_names step action.now) }
{
    match action {
        Action::Set { field, .. } => add_name(step, StepGroup::Field, *field, used),
        Action::Call { via, method, .. } => {
            add_via(step, *via, used)?;
            add_name(step, StepGroup::Method, *method, used)
        }
        Action::Own { method, .. } => add_name(step, StepGroup::Method, *method, used),
        Action::Read { via } => add_via(step, *via, used),
        Action::Write { via, .. } => add_via(step, *via, used),
        Action::Fire { class, .. } => add_name(step, StepGroup::Class, *class, used),
        Action::Find { bean_type, .. } => add_name(step, StepGroup::Type, *bean_type, used),
        Action::Throw { exception } => add_name(step, StepGroup::Exception, *exception, used),
        Action::Proceed
        | Action::ProceedWith { .. }
        | Action::Destroy { .. }
        | Action::Keep { .. }
        | Action::Peek { .. }
        | Action::Give { .. } => Ok(()),
    }
}

fn add_steps(steps: &[Step], used: &mut Seq<StepName>) -> Result<(), AllocError>
    ensures { OnOk result (used.new
        ≡ used.old ++ flat_map spec.step_names (enumerate_from 0 steps.now)) }
{
    for (index, step) in steps.iter().enumerate() {
        add_action(index, &step.action, used)?;
    }
    Ok(())
}

impl ScriptNames {
    /// The names that the steps of a script use as fields to set, injected fields, methods, classes of events, types of lookups and
    /// exceptions. A field that an expression reads isn't one of them, since the value of one that isn't there is null.
    pub fn of(alloc: Global, name: Name, script: &Script) -> Result<ScriptNames, AllocError>
        ensures { IfOk result (λ names. names ≡ spec.script_names name script.now) }
    {
        let mut used = Seq::empty(alloc);
        add_steps(script.steps(), &mut used)?;
        Ok(ScriptNames { script: name, used })
    }
}
