//! Expressions, read from JSON.
ghost use Rattle.std.specs.Prelude.{◌≡◌};
ghost use Rattle.cdi_base.specs.Name.{Extends};
ghost use Rattle.cdi_base.specs.Reading.{Gives};
ghost use Rattle.serde_json.specs.View.{view};
ghost use Rattle.cdi_script.specs.Expression as spec;

use crate::expression::{Expression, Node};
use crate::fault::ScriptFault;
use crate::reading::{Item, bad, count_of, is_count, is_named, name_of};
use cdi_base::{Names, OrMemory, Text};
use cdi_form::is_word;
use serde_json::Value as Json;
use std::alloc::Global;

#[tactic(auto, unfolding(crate::specs::Expression::is_pair))]
fn is_pair(word: &Json, value: &Json) -> bool
    ensures { result ≡ spec.is_pair (view word.now) (view value.now) }
{
    if is_word(word, "field") {
        return is_named(value);
    }
    if is_word(word, "arg") {
        return is_count(value);
    }
    if is_word(word, "ans") {
        return is_count(value);
    }
    false
}

fn is_expression(value: &Json) -> bool
    ensures { result ≡ spec.is_expression (view value.now) }
{
    match value {
        Json::Null => true,
        Json::Bool(_) => false,
        Json::Number(number) => number.as_i64().is_some(),
        Json::String(_) => true,
        Json::Array(items) => match items.as_slice() {
            [] => false,
            [word] => is_word(word, "last"),
            [word, value] => is_pair(word, value),
            [word, left, right] => {
                is_word(word, "add") && is_expression(left) && is_expression(right)
            }
            [_, _, _, _, ..] => false,
        },
        Json::Object(_) => false,
    }
}

#[tactic(auto, unfolding(crate::specs::Expression::pair_of))]
fn pair_of(
    names: &mut Names,
    word: &Json,
    value: &Json,
) -> Result<Expression, OrMemory<ScriptFault>>
    ensures gives { Gives (λ x. (x, names.new)) result
        (spec.pair_of names.old (view word.now) (view value.now)) }
    ensures kept { Extends names.old names.new }
{
    if is_word(word, "field") {
        let name = name_of(names, value)?;
        return Ok(Expression {
            node: Node::Field(name),
        });
    }
    if is_word(word, "arg") {
        return match count_of(value) {
            Some(count) => Ok(Expression {
                node: Node::Argument(count),
            }),
            None => bad(),
        };
    }
    if is_word(word, "ans") {
        return match count_of(value) {
            Some(count) => Ok(Expression {
                node: Node::Answer(count),
            }),
            None => bad(),
        };
    }
    bad()
}

fn expression_of(
    alloc: Global,
    names: &mut Names,
    value: &Json,
) -> Result<Expression, OrMemory<ScriptFault>>
    ensures gives { Gives (λ x. (x, names.new)) result
        (spec.expression_of names.old (view value.now)) }
    ensures kept { Extends names.old names.new }
{
    match value {
        Json::Null => Ok(Expression { node: Node::Null }),
        Json::Bool(_) => bad(),
        Json::Number(number) => match number.as_i64() {
            Some(n) => Ok(Expression { node: Node::Int(n) }),
            None => bad(),
        },
        Json::String(text) => Ok(Expression {
            node: Node::Text(Text::from_str(alloc, text.as_str())?),
        }),
        Json::Array(items) => match items.as_slice() {
            [] => bad(),
            [word] => {
                if !is_word(word, "last") {
                    return bad();
                }
                Ok(Expression { node: Node::Last })
            }
            [word, value] => pair_of(names, word, value),
            [word, left, right] => {
                if !is_word(word, "add") {
                    return bad();
                }
                let left = expression_of(alloc, names, left)?;
                let right = expression_of(alloc, names, right)?;
                Ok(Expression {
                    node: Node::Sum(Box::new(alloc, left)?, Box::new(alloc, right)?),
                })
            }
            [_, _, _, _, ..] => bad(),
        },
        Json::Object(_) => bad(),
    }
}

impl Item for Expression {
    ghost test = { spec.is_expression };

    ghost form = { spec.expression_of };

    fn is_in(value: &Json) -> bool {
        is_expression(value)
    }

    fn read(
        alloc: Global,
        names: &mut Names,
        value: &Json,
    ) -> Result<Expression, OrMemory<ScriptFault>> {
        expression_of(alloc, names, value)
    }
}
