//! The bodies of the box office: what each does next, and what it may do.
ghost use Rattle.std.specs.Prelude.{◌≡◌, ◌∷◌, [], true, IfOk};
ghost use Rattle.cdi_base.specs.declared.act.Act.TheVariants as acts;
ghost use Rattle.cdi_base.specs.declared.act.Via.TheVariants as vias;
ghost use Rattle.cdi_base.specs.declared.value.Value.TheVariants as values;
ghost use Rattle.cdi_bodies.specs.Shape.{in_shape, no_acts};
ghost use Rattle.cdi_example.specs.Shapes as spec;

use cdi_base::{Act, Answer, Fields, Name, Names, Seq, Value, Via};
use cdi_bodies::{FiredEvent, MethodCall, Shape, View};
use std::alloc::{AllocError, Global};

/// The whole number that a body was given first, or 0.
fn first_argument(view: &View) -> i64 {
    match view.args.get(0) {
        Some(Value::Int(number)) => *number,
        _ => 0,
    }
}

/// What the first act of a body was answered, if that is a whole number, or 0.
fn first_answer(view: &View) -> i64 {
    match view.answers.get(0) {
        Some(Answer::Done(Value::Int(number))) => *number,
        _ => 0,
    }
}

/// The whole number that a field holds, or 0.
fn number_in(fields: &Fields, field: Name) -> i64 {
    match fields.get(field) {
        Value::Int(number) => *number,
        _ => 0,
    }
}

/// To call the office behind a field with one value, and to fire an event.
pub(crate) fn buy_shape(
    alloc: Global,
    office: Name,
    sell: Name,
    sold: Name,
) -> Result<Shape, AllocError>
    ensures { IfOk result (λ shape. shape ≡ spec.buy_shape office sell sold) }
{
    let mut shape = Shape::new(alloc);
    shape.calls.push(MethodCall {
        via: Via::Field(office),
        method: sell,
        count: 1,
    })?;
    shape.fires.push(FiredEvent {
        class: sold,
        qualifiers: Seq::empty(alloc),
    })?;
    Ok(shape)
}

/// To set a field.
pub(crate) fn note_shape(alloc: Global, takings: Name) -> Result<Shape, AllocError>
    ensures { IfOk result (λ shape. shape ≡ spec.note_shape takings) }
{
    let mut shape = Shape::new(alloc);
    shape.sets.push(takings)?;
    Ok(shape)
}

/// A call of the office behind a field, for a row.
fn call_office(alloc: Global, office: Name, sell: Name, row: i64) -> Result<Act, AllocError>
    ensures { IfOk result (λ act. act ≡ acts.Call (vias.Field office) sell (values.Int row ∷ [])) }
{
    let mut args = Seq::empty(alloc);
    args.push(Value::Int(row))?;
    Ok(Act::Call {
        via: Via::Field(office),
        method: sell,
        args,
    })
}

/// What the office does: it gives the price of a row.
pub(crate) fn act_of_office(prices: &[i64], view: &View) -> Act
    ensures { in_shape no_acts view.now result ≡ true }
{
    let row = usize::try_from(first_argument(view)).unwrap_or(usize::MAX);
    let price = prices.get(row).copied().unwrap_or(0);
    Act::Give {
        value: Value::Int(price),
    }
}

/// What the desk does: it calls the office, fires an event with the price, and gives that.
pub(crate) fn act_of_desk(
    alloc: Global,
    office: Name,
    sell: Name,
    sold: Name,
    view: &View,
) -> Result<Act, AllocError>
    ensures { IfOk result (λ act. in_shape (spec.buy_shape office sell sold) view.now act ≡ true) }
{
    match view.answers.len() {
        0 => call_office(alloc, office, sell, first_argument(view)),
        1 => Ok(Act::Fire {
            class: sold,
            qualifiers: Seq::empty(alloc),
            value: Value::Int(first_answer(view)),
        }),
        _ => Ok(Act::Give {
            value: Value::Int(first_answer(view)),
        }),
    }
}

/// What the ledger does: it adds an event's price to its takings.
pub(crate) fn act_of_ledger(takings: Name, fields: &Fields, view: &View) -> Act
    ensures { in_shape (spec.note_shape takings) view.now result ≡ true }
{
    if view.answers.len() > 0 {
        return Act::Give { value: Value::Null };
    }
    let total = number_in(fields, takings).saturating_add(first_argument(view));
    Act::Set {
        field: takings,
        value: Value::Int(total),
    }
}
