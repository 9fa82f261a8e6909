//! The steps of scripts. A further step is added here: its action; its kind with the row that says how it is written; the
//! action that is made of the parts read; the act that the action comes to; and what it names. `specs/Step.antt` says the
//! same as definitions, `proofs/Within.antt` that each act lies in the shape.
ghost use Rattle.std.specs.Prelude.{◌≡◌, IfOk, OnOk};
ghost use Rattle.cdi_script.specs.Step as spec;

use crate::expression::Expression;
use crate::part::{PartKind, Parts};
use crate::value::values_of;
use cdi_base::{Act, Fields, Name, Seq, Use, Via};
use cdi_bodies::{FiredEvent, Lookup, MethodCall, OwnCall, Shape, View};
use std::alloc::{AllocError, Global};

/// One step of a script.
#[derive(Debug, Drop)]
pub struct Step {
    /// Whether the step is reached after an exception, and then only.
    pub is_catch: bool,
    /// What is done where the step is reached.
    pub action: Action,
}

/// The act of a step, with expressions where the act has values.
#[derive(Debug, Drop)]
pub enum Action {
    /// Gives a field of the own instance another value.
    Set {
        field: Name,
        value: Expression,
    },
    /// Calls a business method of the instance behind a reference.
    Call {
        via: Via,
        method: Name,
        args: Seq<Expression>,
    },
    /// Calls a method of the own instance.
    Own {
        method: Name,
        args: Seq<Expression>,
    },
    /// Reads the value that the product behind a reference holds.
    Read {
        via: Via,
    },
    /// Gives the product behind a reference another value.
    Write {
        via: Via,
        value: Expression,
    },
    /// Fires an event.
    Fire {
        class: Name,
        qualifiers: Seq<Use>,
        value: Expression,
    },
    /// Goes on with the rest of an interceptor chain, with the parameters as they are.
    Proceed,
    /// Goes on with the rest of an interceptor chain, with other parameters.
    ProceedWith {
        args: Seq<Expression>,
    },
    /// Looks a bean up. The lookups of a script are numbered from 0, in the order of these steps.
    Find {
        bean_type: Name,
        qualifiers: Seq<Use>,
    },
    /// Destroys the instance behind a local.
    Destroy {
        local: u32,
    },
    /// Keeps a value in the context data of the invocation.
    Keep {
        key: Name,
        value: Expression,
    },
    /// Reads a value of the context data.
    Peek {
        key: Name,
    },
    /// Ends the body with a value.
    Give {
        value: Expression,
    },
    /// Ends the body with an exception.
    Throw {
        exception: Name,
    },
}

/// The same qualifiers, in memory of their own.
#[tactic(auto, using(cdi_base::proofs::Clones::same_items))]
pub(crate) fn copy_of(qualifiers: &Seq<Use>) -> Result<Seq<Use>, AllocError>
    ensures { IfOk result (λ copy. copy ≡ qualifiers.now) }
{
    qualifiers.clone()
}

/// The kinds of steps, a catch apart.
#[derive(Clone, Copy, Debug, PartialEq, Eq)]
pub enum StepKind {
    Set,
    Call,
    Own,
    Read,
    Write,
    Fire,
    Proceed,
    ProceedWith,
    Find,
    Destroy,
    Keep,
    Peek,
    Give,
    Throw,
}

/// How a step of a kind is written: its word, and what stands behind that.
#[derive(Clone, Copy, Debug)]
pub struct Row {
    pub word: &'static str,
    pub parts: &'static [PartKind],
}

impl Row {
    fn new(word: &'static str, parts: &'static [PartKind]) -> Row
        ensures { spec.Shows result (spec.row word.now parts.now) }
    {
        Row { word, parts }
    }
}

impl StepKind {
    /// All kinds, in the order in which a step is looked for among them.
    pub const ALL: [StepKind; 14] = [
        StepKind::Set,
        StepKind::Call,
        StepKind::Own,
        StepKind::Read,
        StepKind::Write,
        StepKind::Fire,
        StepKind::Proceed,
        StepKind::ProceedWith,
        StepKind::Find,
        StepKind::Destroy,
        StepKind::Keep,
        StepKind::Peek,
        StepKind::Give,
        StepKind::Throw,
    ];

    /// The row of a kind in the table of steps.
    pub fn row(self) -> Row
        ensures { spec.Shows result (spec.row_of self) }
    {
        match self {
            StepKind::Set => Row::new("set", &[PartKind::Name, PartKind::Value]),
            StepKind::Call => Row::new("call", &[PartKind::Via, PartKind::Name, PartKind::Values]),
            StepKind::Own => Row::new("own", &[PartKind::Name, PartKind::Values]),
            StepKind::Read => Row::new("read", &[PartKind::Via]),
            StepKind::Write => Row::new("write", &[PartKind::Via, PartKind::Value]),
            StepKind::Fire => Row::new(
                "fire",
                &[PartKind::Name, PartKind::Qualifiers, PartKind::Value],
            ),
            StepKind::Proceed => Row::new("proceed", &[]),
            StepKind::ProceedWith => Row::new("proceed", &[PartKind::Values]),
            StepKind::Find => Row::new("find", &[PartKind::Name, PartKind::Qualifiers]),
            StepKind::Destroy => Row::new("destroy", &[PartKind::Local]),
            StepKind::Keep => Row::new("keep", &[PartKind::Name, PartKind::Value]),
            StepKind::Peek => Row::new("peek", &[PartKind::Name]),
            StepKind::Give => Row::new("give", &[PartKind::Value]),
            StepKind::Throw => Row::new("throw", &[PartKind::Name]),
        }
    }

    /// The action of a step with these parts.
    pub(crate) fn action(self, parts: Parts) -> Action
        ensures { result ≡ spec.action_of self parts }
    {
        let Parts {
            name,
            via,
            local,
            qualifiers,
            value,
            values,
        } = parts;
        match self {
            StepKind::Set => Action::Set { field: name, value },
            StepKind::Call => Action::Call {
                via,
                method: name,
                args: values,
            },
            StepKind::Own => Action::Own {
                method: name,
                args: values,
            },
            StepKind::Read => Action::Read { via },
            StepKind::Write => Action::Write { via, value },
            StepKind::Fire => Action::Fire {
                class: name,
                qualifiers,
                value,
            },
            StepKind::Proceed => Action::Proceed,
            StepKind::ProceedWith => Action::ProceedWith { args: values },
            StepKind::Find => Action::Find {
                bean_type: name,
                qualifiers,
            },
            StepKind::Destroy => Action::Destroy { local },
            StepKind::Keep => Action::Keep { key: name, value },
            StepKind::Peek => Action::Peek { key: name },
            StepKind::Give => Action::Give { value },
            StepKind::Throw => Action::Throw { exception: name },
        }
    }
}

impl Action {
    /// Whether the action makes a lookup.
    pub(crate) fn is_lookup(&self) -> bool
        ensures { result ≡ spec.is_lookup self.now }
    {
        match self {
            Action::Find { .. } => true,
            _ => false,
        }
    }

    /// The act that the action comes to, with its expressions at the fields of an instance and what a body has seen.
    /// The lookup is the one that the action makes if it makes one.
    pub(crate) fn act(
        &self,
        alloc: Global,
        lookup: u32,
        fields: &Fields,
        view: &View,
    ) -> Result<Act, AllocError>
        ensures { IfOk result (λ act. act ≡ spec.act_of lookup self.now fields.now view.now) }
    {
        Ok(match self {
            Action::Set { field, value } => Act::Set {
                field: *field,
                value: value.value(alloc, fields, view)?,
            },
            Action::Call { via, method, args } => Act::Call {
                via: *via,
                method: *method,
                args: values_of(alloc, args.as_slice(), fields, view)?,
            },
            Action::Own { method, args } => Act::Own {
                method: *method,
                args: values_of(alloc, args.as_slice(), fields, view)?,
            },
            Action::Read { via } => Act::Read { via: *via },
            Action::Write { via, value } => Act::Write {
                via: *via,
                value: value.value(alloc, fields, view)?,
            },
            Action::Fire {
                class,
                qualifiers,
                value,
            } => Act::Fire {
                class: *class,
                qualifiers: copy_of(qualifiers)?,
                value: value.value(alloc, fields, view)?,
            },
            Action::Proceed => Act::Proceed { args: None },
            Action::ProceedWith { args } => Act::Proceed {
                args: Some(values_of(alloc, args.as_slice(), fields, view)?),
            },
            Action::Find { .. } => Act::Find { lookup },
            Action::Destroy { local } => Act::Destroy { local: *local },
            Action::Keep { key, value } => Act::Keep {
                key: *key,
                value: value.value(alloc, fields, view)?,
            },
            Action::Peek { key } => Act::Peek { key: *key },
            Action::Give { value } => Act::Give {
                value: value.value(alloc, fields, view)?,
            },
            Action::Throw { exception } => Act::Throw {
                exception: *exception,
            },
        })
    }

    /// Adds what the action names to a shape.
    pub(crate) fn list(&self, shape: &mut Shape) -> Result<(), AllocError>
        ensures { OnOk result (shape.new ≡ spec.with_action shape.old self.now) }
    {
        match self {
            Action::Set { field, .. } => shape.sets.push(*field)?,
            Action::Call { via, method, args } => shape.calls.push(MethodCall {
                via: *via,
                method: *method,
                count: args.len(),
            })?,
            Action::Own { method, args } => shape.owns.push(OwnCall {
                method: *method,
                count: args.len(),
            })?,
            Action::Read { via } => shape.cells.push(*via)?,
            Action::Write { via, .. } => shape.cells.push(*via)?,
            Action::Fire {
                class,
                qualifiers,
                ..
            } => shape.fires.push(FiredEvent {
                class: *class,
                qualifiers: copy_of(qualifiers)?,
            })?,
            Action::Find {
                bean_type,
                qualifiers,
            } => shape.lookups.push(Lookup {
                bean_type: *bean_type,
                qualifiers: copy_of(qualifiers)?,
            })?,
            Action::Destroy { local } => shape.destroys.push(*local)?,
            Action::Throw { exception } => shape.throws.push(*exception)?,
            Action::Proceed => shape.chain = true,
            Action::ProceedWith { .. } => shape.chain = true,
            Action::Keep { .. } => shape.chain = true,
            Action::Peek { .. } => shape.chain = true,
            Action::Give { .. } => {}
        }
        Ok(())
    }
}
