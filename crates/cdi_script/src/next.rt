//! What a script does next.
ghost use Rattle.std.specs.Prelude.{◌≡◌, ◌+◌, ◌-◌, ◌∷◌, ◌≤◌, ◌<◌, ◌^◌, false, true, List, drop, fold, length, slice_get, unwrap_or, IsOk, IfOk, option_map};
ghost use Rattle.std.specs.List.{AllByRecursion};
ghost use Rattle.cdi_base.specs.declared.act.Answer.{Answer as AnyAnswer};
ghost use Rattle.cdi_bodies.specs.Answers.{threw};
ghost use Rattle.cdi_script.specs.Next as spec;
ghost use Rattle.cdi_script.specs.Reached as reaching;
ghost use Rattle.cdi_base.specs.declared.fields.Fields.{Fields as AnyFields};
ghost use Rattle.cdi_bodies.specs.declared.view.View.{View as AnyView};
ghost use Rattle.cdi_script.specs.Places.{places_from};
ghost use Rattle.cdi_script.specs.Step.{act_of};
ghost use Rattle.cdi_script.specs.Within.{StaysInShape};

use crate::script::{MAX_STEPS, Script};
use crate::step::Step;
use cdi_base::{Act, Answer, Fields, Value};
use cdi_bodies::{Answers, View};
use std::alloc::{AllocError, Global};

fn lookups_in(steps: &[Step]) -> usize
    ensures count { result ≡ spec.lookups_in steps.now }
    ensures within { result ≤ length steps.now }
{
    let mut count = 0;
    for step in steps {
        if step.action.is_lookup() {
            count += 1;
        }
    }
    count
}

fn end_act(last: Option<&Answer>) -> Act
    ensures { result ≡ spec.end_act (option_map (λ x. x.now) last.entry) }
{
    match last {
        Some(Answer::Threw { exception, .. }) => Act::Throw {
            exception: *exception,
        },
        _ => Act::Give { value: Value::Null },
    }
}

impl Script {
    /// The place of the step that has so many of its kind between a place and itself; the number of steps if there is no such step.
    fn nth_from(&self, catches: bool, place: usize, nth: usize) -> usize
        ensures is { result ≡ unwrap_or
            (slice_get (places_from catches place (drop place self.now)) nth) (length self.now) }
        ensures within { result ≤ MAX_STEPS }
    {
        if catches {
            return self
                .catches
                .nth_from(place, nth)
                .unwrap_or(self.steps.len());
        }
        self.plain.nth_from(place, nth).unwrap_or(self.steps.len())
    }

    /// The place of the next step, at a place or behind it, that is a catch or is none; the number of steps if there is no such step.
    fn next_from(&self, catches: bool, place: usize) -> usize
        ensures is { drop result self.now ≡ reaching.from_next catches (drop place self.now) }
        ensures within { result ≤ MAX_STEPS }
    {
        self.nth_from(catches, place, 0)
    }

    /// The place that is reached from a step by so many answers that are no exceptions.
    fn reached_quietly(&self, place: usize, count: usize) -> usize
        requires { place ≤ MAX_STEPS }
        ensures is { (answers : List AnyAnswer) → length answers ≡ count
            → AllByRecursion (λ answer. threw answer ≡ false) answers
            → drop result self.now ≡ fold reaching.after_answer (drop place self.now) answers }
        ensures within { result ≤ MAX_STEPS }
    {
        if count == 0 {
            return place;
        }
        self.nth_from(false, place + 1, count - 1)
    }

    /// The place of the step that these answers reach, or the number of steps if none is left.
    fn place_reached(&self, answers: &Answers) -> usize
        ensures { drop result self.now ≡ reaching.reached self.now answers.now }
    {
        let count = answers.len();
        let mut place = self.next_from(false, 0);
        let mut passed = 0;
        for exception in answers.exceptions() {
            let thrown_at = self.reached_quietly(place, *exception - passed);
            place = self.next_from(true, thrown_at + 1);
            passed = *exception + 1;
        }
        self.reached_quietly(place, count - passed)
    }

    /// The number of lookups before a step, if the step is one itself.
    fn lookup_at(&self, place: usize, step: &Step) -> u32
        requires { drop place self.now ≡ step.now ∷ drop (place + 1) self.now }
        ensures { (fields : AnyFields) (view : AnyView)
            → act_of result step.now.action fields view
            ≡ act_of (spec.lookups_in self.now - spec.lookups_in (drop place self.now))
            step.now.action fields view }
    {
        if !step.action.is_lookup() {
            return 0;
        }
        let steps = self.steps.as_slice();
        lookups_in(steps).saturating_sub(lookups_in(&steps[place..])) as u32
    }

    /// What a body with this script does next. At the start, and after an answer that is no exception, it takes the
    /// next step that is no catch; after an exception it takes the next catch, and where there is none it throws the
    /// exception on. Where no step is left otherwise, it gives null. The place in the script only moves forward, so
    /// that no step is taken twice. At the end of the script memory is never wanting. How long it takes hangs on the number of
    /// exceptions among the answers, and for a lookup on that of the steps.
    pub fn next(&self, alloc: Global, fields: &Fields, view: &View) -> Result<Act, AllocError>
        ensures act { IfOk result (λ act. act ≡ spec.next_of self.now fields.now view.now) }
        ensures ended { reaching.HasEnded self.now view.now.answers → IsOk result }
    {
        let place = self.place_reached(&view.answers);
        let Some(step) = self.steps.get(place) else {
            return Ok(end_act(view.answers.as_slice().last()));
        };
        let lookup = self.lookup_at(place, step);
        step.action.act(alloc, lookup, fields, view)
    }

    /// What a script does next lies in the shape that it has, whatever its fields are and whatever was answered.
    pub fn stays_in_shape(_script: &Script)
        ensures { StaysInShape _script.now }
    {}
}
