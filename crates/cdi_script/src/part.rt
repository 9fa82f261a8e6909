//! The parts that steps have behind their words.
ghost use Rattle.std.specs.Prelude.{◌≡◌};
ghost use Rattle.cdi_base.specs.Name.{Extends};
ghost use Rattle.cdi_base.specs.Reading.{Gives};
ghost use Rattle.serde_json.specs.View.{view, items_view};
ghost use Rattle.cdi_script.specs.Part as spec;

use crate::expression::{Expression, Node};
use crate::fault::ScriptFault;
use crate::reading::{Item, array_of, bad, is_array_of, is_named, name_of};
use crate::via::{is_via, local_of, via_of};
use cdi_base::{BuiltIn, Name, Names, OrMemory, Seq, Use, Via};
use serde_json::Value as Json;
use std::alloc::Global;

/// What stands at a place behind the word of a step.
#[derive(Clone, Copy, Debug, PartialEq, Eq)]
pub enum PartKind {
    /// A name: of a field, a method, a class, a type, a key or an exception.
    Name,
    /// A reference to another instance.
    Via,
    /// A reference to a local.
    Local,
    /// An array of uses of qualifiers.
    Qualifiers,
    /// An expression.
    Value,
    /// An array of expressions.
    Values,
}

/// The parts of a step, of which a step has one of a kind at most. Of a kind that the step has not, there stands
/// what [`Parts::none`] says, at which no action looks (`law_action`).
#[derive(Debug, Drop)]
pub(crate) struct Parts {
    pub(crate) name: Name,
    pub(crate) via: Via,
    pub(crate) local: u32,
    pub(crate) qualifiers: Seq<Use>,
    pub(crate) value: Expression,
    pub(crate) values: Seq<Expression>,
}

impl PartKind {
    /// Whether a value is a part of this kind.
    pub fn is_in(self, value: &Json) -> bool
        ensures { result ≡ spec.is_part self (view value.now) }
    {
        match self {
            PartKind::Name => is_named(value),
            PartKind::Via => is_via(value),
            PartKind::Local => local_of(value).is_some(),
            PartKind::Qualifiers => is_array_of::<Use>(value),
            PartKind::Value => Expression::is_in(value),
            PartKind::Values => is_array_of::<Expression>(value),
        }
    }
}

/// Whether there are as many values as kinds, and each is a part of its kind.
pub(crate) fn are_parts(kinds: &[PartKind], values: &[Json]) -> bool
    ensures { result ≡ spec.are_parts kinds.now (items_view values.now) }
{
    let Some((kind, kinds)) = kinds.split_first() else {
        return values.is_empty();
    };
    let Some((value, values)) = values.split_first() else {
        return false;
    };
    kind.is_in(value) && are_parts(kinds, values)
}

impl Parts {
    /// The parts of a step that has none.
    pub(crate) fn none(alloc: Global) -> Parts
        ensures { result ≡ spec.no_parts }
    {
        Parts {
            name: BuiltIn::Object.name(),
            via: Via::Param(0),
            local: 0,
            qualifiers: Seq::empty(alloc),
            value: Expression { node: Node::Null },
            values: Seq::empty(alloc),
        }
    }

    fn read(
        &mut self,
        alloc: Global,
        names: &mut Names,
        kind: PartKind,
        value: &Json,
    ) -> Result<(), OrMemory<ScriptFault>>
        ensures gives { Gives (λ _. (self.new, names.new)) result
            (spec.with_part self.old names.old kind (view value.now)) }
        ensures kept { Extends names.old names.new }
    {
        match kind {
            PartKind::Name => self.name = name_of(names, value)?,
            PartKind::Via => self.via = via_of(names, value)?,
            PartKind::Local => match local_of(value) {
                Some(local) => self.local = local,
                None => return bad(),
            },
            PartKind::Qualifiers => self.qualifiers = array_of::<Use>(alloc, names, value)?,
            PartKind::Value => self.value = Expression::read(alloc, names, value)?,
            PartKind::Values => self.values = array_of::<Expression>(alloc, names, value)?,
        }
        Ok(())
    }

    /// Reads values as parts of these kinds, one after another.
    pub(crate) fn read_all(
        &mut self,
        alloc: Global,
        names: &mut Names,
        kinds: &[PartKind],
        values: &[Json],
    ) -> Result<(), OrMemory<ScriptFault>>
        ensures gives { Gives (λ _. (self.new, names.new)) result
            (spec.with_parts self.old names.old kinds.now (items_view values.now)) }
        ensures kept { Extends names.old names.new }
    {
        let Some((kind, kinds)) = kinds.split_first() else {
            return Ok(());
        };
        let Some((value, values)) = values.split_first() else {
            return Ok(());
        };
        self.read(alloc, names, *kind, value)?;
        self.read_all(alloc, names, kinds, values)
    }
}
