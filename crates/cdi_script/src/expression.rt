//! The expressions of scripts.
use cdi_base::{Name, Text};
use std::marker::Model;

/// An expression of a script, which has a value at the fields of an instance and what a body has seen. Contracts see
/// it as a term.
#[cycle(expression)]
#[derive(Debug, Drop)]
pub struct Expression {
    pub(crate) node: Node,
}

/// One level of an expression.
#[cycle(expression)]
#[derive(Debug, Drop)]
pub(crate) enum Node {
    Null,
    Int(i64),
    Text(Text),
    /// A field of the own instance, null if it is absent.
    Field(Name),
    /// A parameter, counted from 0, null if there are fewer.
    Argument(u32),
    /// What an act was answered, counted from 0.
    Answer(u32),
    /// What the last act was answered.
    Last,
    /// The sum of two whole numbers.
    Sum(Box<Expression>, Box<Expression>),
}

impl Model for Expression {
    ghost use Rattle.cdi_script.specs.Term.{Term, size_of};
    ghost use Rattle.cdi_script.specs.TermCode.{coded_term};

    ghost Value = { Term };

    ghost coded = { coded_term };

    ghost use Rattle.cdi_script.specs.Node.{term_of};

    ghost view = { λ e. term_of e.node };

    ghost size = { size_of };

    ghost use Rattle.std.proofs.Common.{arith};

    ghost size_decreases = { λ a h. Prim.grind arith };
}
