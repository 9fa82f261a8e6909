//! The value of an expression.
ghost use Rattle.std.specs.Prelude.{◌≡◌, IfOk, option_map};
ghost use Rattle.cdi_bodies.specs.Shape.{last_answer};
ghost use Rattle.cdi_script.specs.Value as spec;

use crate::expression::{Expression, Node};
use cdi_base::{Answer, Fields, Seq, Text, Value};
use cdi_bodies::View;
use std::alloc::{AllocError, Global};

fn sum(a: &Value, b: &Value) -> Value
    ensures { result ≡ spec.sum_of a.now b.now }
{
    match (a, b) {
        (Value::Int(a), Value::Int(b)) => match a.checked_add(*b) {
            Some(n) => Value::Int(n),
            None => Value::Null,
        },
        _ => Value::Null,
    }
}

fn value_in(answer: Option<&Answer>) -> Result<Value, AllocError>
    ensures { IfOk result (λ v. v ≡ spec.value_in (option_map (λ x. x.now) answer.entry)) }
{
    match answer {
        Some(Answer::Done(value)) => value.clone(),
        Some(Answer::Threw { text, .. }) => Ok(Value::Text(text.clone()?)),
        Some(Answer::Found(_)) => Ok(Value::Null),
        None => Ok(Value::Null),
    }
}

impl Expression {
    /// The value at the fields of an instance and what a body has seen.
    pub fn value(&self, alloc: Global, fields: &Fields, view: &View) -> Result<Value, AllocError>
        ensures { IfOk result (λ v. v ≡ spec.value_of self.now fields.now view.now) }
    {
        match &self.node {
            Node::Null => Ok(Value::Null),
            Node::Int(n) => Ok(Value::Int(*n)),
            Node::Text(text) => Ok(Value::Text(text.clone()?)),
            Node::Field(name) => fields.get(*name).clone(),
            Node::Argument(k) => match view.args.get(*k as usize) {
                Some(value) => value.clone(),
                None => Ok(Value::Null),
            },
            Node::Answer(k) => value_in(view.answers.get(*k as usize)),
            Node::Last => value_in(view.answers.as_slice().last()),
            Node::Sum(a, b) => {
                let a = a.value(alloc, fields, view)?;
                let b = b.value(alloc, fields, view)?;
                Ok(sum(&a, &b))
            }
        }
    }
}

/// The values of expressions, in order.
pub(crate) fn values_of(
    alloc: Global,
    args: &[Expression],
    fields: &Fields,
    view: &View,
) -> Result<Seq<Value>, AllocError>
    ensures { IfOk result (λ values. values ≡ spec.values_of args.now fields.now view.now) }
{
    let mut values = Vec::new(alloc);
    for arg in args {
        values.push(arg.value(alloc, fields, view)?)?;
    }
    Ok(Seq::new(values))
}
