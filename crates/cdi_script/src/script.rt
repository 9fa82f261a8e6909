//! Scripts, and reading them.
ghost use Rattle.std.specs.Prelude.{◌≡◌, ◌≤◌, ◌↔◌, [], length, false, option_map, IsTrue, IsSome, IfOk, IfSome};
ghost use Rattle.cdi_base.specs.Name.{Extends};
ghost use Rattle.cdi_base.specs.Reading.{Gives, IsFault};
ghost use Rattle.serde_json.specs.View.{view, items_view};
ghost use Rattle.cdi_script.specs.Build as spec;
ghost use Rattle.cdi_script.specs.Form as form;
ghost use Rattle.cdi_script.specs.declared.fault.ScriptFault.TheVariants.{BadStep, TooLong};

use crate::fault::ScriptFault;
use crate::places::Places;
use crate::reading::{Item, are_all, bad, each};
use crate::step::Step;
use cdi_base::{Names, OrMemory, Seq};
use serde_json::Value as Json;
use std::alloc::{AllocError, Global};
use std::marker::Model;

/// The most steps that a script has.
pub const MAX_STEPS: usize = 256;

/// A script, which contracts see as the list of its steps.
#[derive(Debug, Drop)]
pub struct Script {
    pub(crate) steps: Seq<Step>,
    /// Where the steps stand that are no catch.
    pub(crate) plain: Places,
    /// Where the catch steps stand.
    pub(crate) catches: Places,
}

impl Model for Script {
    ghost use Rattle.std.specs.Prelude.{List, ◌≤◌, length, true, false};
    ghost use Rattle.std.specs.Coded.{codes};
    ghost use Rattle.cdi_script.specs.Places as places;
    ghost use Rattle.cdi_script.specs.contracts.step.Step as step;
    ghost use Rattle.cdi_script.specs.declared.step.Step.{Step as AnyStep};

    ghost Value = { List AnyStep };

    ghost coded = { Prim.hlevel (codes, step.the_row.coded) };

    ghost view = { λ s. s.steps };

    ghost invariant = { λ s. (length s.steps ≤ 256)
        × places.ArePlaces false s.steps s.plain
        × places.ArePlaces true s.steps s.catches };
}

#[tactic(auto, using(crate::proofs::Long::lengths))]
fn steps_of(
    alloc: Global,
    names: &mut Names,
    items: &[Json],
) -> Result<Seq<Step>, OrMemory<ScriptFault>>
    ensures gives { Gives (λ steps. (steps, names.new)) result
        (spec.steps_of names.old (items_view items.now)) }
    ensures within { IfOk result (λ steps. length steps ≤ MAX_STEPS) }
    ensures bad_step { IsFault result BadStep
        ↔ (form.are_steps (items_view items.now) ≡ false) }
    ensures too_long { IsFault result TooLong
        ↔ IsTrue (form.are_too_many (items_view items.now)) }
    ensures refused { form.are_few_steps (items_view items.now) ≡ false
        → names.new ≡ names.old }
    ensures kept { Extends names.old names.new }
{
    if !are_all::<Step>(items) {
        return bad();
    }
    if items.len() > MAX_STEPS {
        return Err(OrMemory::Fault(ScriptFault::TooLong));
    }
    each::<Step>(alloc, names, items)
}

impl Script {
    /// The script of these steps.
    fn with_places(alloc: Global, steps: Seq<Step>) -> Result<Script, AllocError>
        requires { length steps ≤ MAX_STEPS }
        ensures { IfOk result (λ script. script ≡ steps) }
    {
        let plain = Places::of(alloc, false, steps.as_slice())?;
        let catches = Places::of(alloc, true, steps.as_slice())?;
        Ok(Script {
            steps,
            plain,
            catches,
        })
    }

    /// Its steps, in order.
    pub fn steps(&self) -> &[Step]
        ensures { result.now ≡ self.now }
    {
        self.steps.as_slice()
    }

    /// The script that a value is: an array of at most [`MAX_STEPS`] steps. Its names go into the table. A value that is no
    /// script, or one that is too long, leaves the table as it was, and memory is never wanting for it; where the table is
    /// full or memory runs out, the table may have got some names of the script. The names that were in it keep their
    /// numbers.
    pub fn read(
        alloc: Global,
        value: &Json,
        names: &mut Names,
    ) -> Result<Script, OrMemory<ScriptFault>>
        ensures gives { Gives (λ script. (script, names.new)) result
            (spec.script_of names.old (view value.now)) }
        ensures bad_step { IsFault result BadStep
            ↔ (form.has_steps (view value.now) ≡ false) }
        ensures too_long { IsFault result TooLong
            ↔ IsTrue (form.is_too_long (view value.now)) }
        ensures refused { form.is_script (view value.now) ≡ false
            → names.new ≡ names.old }
        ensures kept { Extends names.old names.new }
    {
        let Json::Array(items) = value else {
            return bad();
        };
        let steps = steps_of(alloc, names, items.as_slice())?;
        Ok(Script::with_places(alloc, steps)?)
    }

    /// How many steps there are.
    pub fn len(&self) -> usize
        ensures count { result ≡ length self.now }
        ensures within { length self.now ≤ MAX_STEPS }
    {
        self.steps.len()
    }

    /// Whether there is no step.
    pub fn is_empty(&self) -> bool
        ensures { IsTrue result ↔ (self.now ≡ []) }
    {
        self.steps.is_empty()
    }
}
