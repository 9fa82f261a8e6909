//! A body that no script can be: one that calls itself until a number is spent.
ghost use Rattle.std.specs.Prelude.{◌≡◌, true, IfOk};
ghost use Rattle.cdi_bodies.specs.Shape.{in_shape};
ghost use Rattle.cdi_tests_calls.specs.Plain.{IsPlain, plain_shape};

use cdi_base::{Act, Fields, Name, Names, Seq, Value};
use cdi_bodies::{OwnCall, Shape, View};
use std::alloc::{AllocError, Global};

/// A body that counts a field up so many times, then calls its own method with one less than it was called with, unless
/// that was 0, and then gives the field.
#[derive(Clone, Copy, Drop)]
pub(crate) struct Counting {
    alloc: Global,
    pub(crate) field: Name,
    pub(crate) method: Name,
    sets: usize,
}

/// The number after one that was counted.
fn next_of(value: &Value) -> i64 {
    match value {
        Value::Int(count) => count.checked_add(1).unwrap_or(0),
        _ => 0,
    }
}

impl Counting {
    /// The body that counts the field `n` and calls the method `up`.
    pub(crate) fn new(alloc: Global, names: &Names, sets: usize) -> Counting {
        Counting {
            alloc,
            field: names.name_for("n"),
            method: names.name_for("up"),
            sets,
        }
    }

    fn count(&self, fields: &Fields) -> Act
        ensures { IsPlain self.now.field self.now.method result }
    {
        Act::Set {
            field: self.field,
            value: Value::Int(next_of(fields.get(self.field))),
        }
    }

    fn call_below(&self, level: i64) -> Result<Act, AllocError>
        ensures { IfOk result (IsPlain self.now.field self.now.method) }
    {
        let mut args = Seq::empty(self.alloc);
        args.push(Value::Int(level))?;
        Ok(Act::Own {
            method: self.method,
            args,
        })
    }

    fn give(&self, fields: &Fields) -> Result<Act, AllocError>
        ensures { IfOk result (IsPlain self.now.field self.now.method) }
    {
        let value = fields.get(self.field).clone()?;
        Ok(Act::Give { value })
    }

    fn plain_next(&self, fields: &Fields, view: &View) -> Result<Act, AllocError>
        ensures { IfOk result (IsPlain self.now.field self.now.method) }
    {
        let answers = view.answers.len();
        if answers < self.sets {
            return Ok(self.count(fields));
        }
        match view.args.get(0) {
            Some(Value::Int(level)) if *level > 0 && answers == self.sets => self.call_below(
                level.saturating_sub(1),
            ),
            _ => self.give(fields),
        }
    }

    /// What it does next.
    #[tactic(auto, using(crate::proofs::Shapes::plain_in_shape))]
    pub(crate) fn next(&self, fields: &Fields, view: &View) -> Result<Act, AllocError>
        ensures { IfOk result (λ act.
            in_shape (plain_shape self.now.field self.now.method) view.now act ≡ true) }
    {
        self.plain_next(fields, view)
    }

    /// What it may name.
    pub(crate) fn shape(&self) -> Result<Shape, AllocError>
        ensures { IfOk result (λ shape. shape ≡ plain_shape self.now.field self.now.method) }
    {
        let mut shape = Shape::new(self.alloc);
        shape.sets.push(self.field)?;
        shape.owns.push(OwnCall {
            method: self.method,
            count: 1,
        })?;
        Ok(shape)
    }
}
