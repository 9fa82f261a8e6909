//! What drives the machine from outside: bodies give acts, and a chooser picks among candidates.
ghost use Rattle.std.specs.Prelude.{◌≡◌, ◌<◌, ℕ, length, IfOk};
ghost use Rattle.cdi_bodies.specs.Table.{entries_of};
ghost use Rattle.cdi_machine.specs.Hearing.{Hearing, Ending};
ghost use Rattle.cdi_machine.specs.Laws.{IsWithin};
ghost use Rattle.cdi_machine.specs.Registered.{chosen_by};
ghost use Rattle.cdi_machine.specs.declared.driver.Failure.TheVariants.{Memory};

use cdi_base::{Act, Entry, Fields};
use cdi_bodies::{Bodies, BodyId, Chooser, View};
use std::alloc::AllocError;

/// Why a driver gives nothing. The command ends there, either way by the definition's rule for want of memory.
#[derive(Clone, Copy, Debug, PartialEq, Eq)]
pub enum Failure {
    /// No memory was left.
    Memory,
    /// The driver has nothing to give at this place, as a recording that has come to its end.
    Exhausted,
}

impl From<AllocError> for Failure {
    ghost from_gives = { λ _ f. f ≡ Memory };

    fn from(_error: AllocError) -> Failure {
        Failure::Memory
    }
}

/// The acts of bodies, and the picks among candidates whose order is free. It is told each entry before it is written, and
/// each time how many the command has so far, so that one driver can follow a recording. It may end at an act, a pick or an
/// entry, and keeps for which of them. Nothing becomes legal by asking, and a driver that can't end still can't.
pub trait Driver {
    ghost use Rattle.std.specs.Prelude.{ℕ, ◌<◌, IfOk, IfErr};
    ghost use Rattle.cdi_machine.specs.Runs.{Legal};
    ghost use Rattle.cdi_machine.specs.Failures.{IsFailureOf};
    ghost use Rattle.cdi_machine.specs.Hearing.{Hearing, Ending, IsAsked, IsTold};
    ghost use Rattle.cdi_machine.specs.Hearing.Ending.{Due, ActAsked, PickAsked};
    ghost use Rattle.cdi_machine.specs.Laws.{IsWithin};

    /// There is a body under this number.
    ghost knows: { Self → ℕ → Type 0 };
    /// What the bodies may give, and which candidates may be picked.
    ghost legal: { Self → Legal };
    /// It may have been asked for so many acts and picks, and told these entries.
    ghost heard: { Self → Hearing → Type 0 };
    /// It may end, now or later.
    ghost may_end: { Self → Type 0 };
    /// It has ended for this reason, and was asked and told as much before.
    ghost ended: { Self → Ending → Hearing → Type 0 };

    /// The next act of a body. Its uses need not be in their written form.
    fn act(
        &mut self,
        body: BodyId,
        entries: u64,
        fields: &Fields,
        view: &View,
    ) -> Result<Act, Failure>
        requires { knows self.old body }
        ensures legal { IfOk result (λ act.
            (legal self.old).gives body entries fields.now view.now act) }
        ensures asked { IfOk result (λ act. IsAsked (heard self.old) (heard self.new)) }
        ensures failed { IfErr result (IsFailureOf (may_end self.old)
            (heard self.old) (heard self.new)
            (ended self.new (ActAsked body entries fields.now view.now))) }
        ensures stays { IsWithin (legal self.new) (legal self.old) }
        ensures goes_on { may_end self.new → may_end self.old }
        ensures still_known { (other : ℕ) → knows self.old other → knows self.new other };

    /// One of two or more candidates.
    fn pick(&mut self, count: u32, entries: u64) -> Result<u32, Failure>
        requires { 1 < count }
        ensures below { IfOk result (λ choice. choice < count) }
        ensures legal { IfOk result (λ choice. (legal self.old).picks count entries choice) }
        ensures asked { IfOk result (λ choice. IsAsked (heard self.old) (heard self.new)) }
        ensures failed { IfErr result (IsFailureOf (may_end self.old)
            (heard self.old) (heard self.new)
            (ended self.new (PickAsked count entries))) }
        ensures stays { IsWithin (legal self.new) (legal self.old) }
        ensures goes_on { may_end self.new → may_end self.old }
        ensures still_known { (other : ℕ) → knows self.old other → knows self.new other };

    /// An entry is about to be written, behind so many others.
    fn tell(&mut self, entry: &Entry, entries: u64) -> Result<(), Failure>
        ensures told { IfOk result (λ done. IsTold entry.now (heard self.old) (heard self.new)) }
        ensures failed { IfErr result (IsFailureOf (may_end self.old)
            (heard self.old) (heard self.new)
            (ended self.new (Due entry.now))) }
        ensures stays { IsWithin (legal self.new) (legal self.old) }
        ensures goes_on { may_end self.new → may_end self.old }
        ensures still_known { (other : ℕ) → knows self.old other → knows self.new other };
}

/// The registered bodies, and beside them the chooser, which picks where the rules leave an order open.
#[derive(Drop)]
pub struct Registered {
    /// What the bodies may give is what their closures promise.
    pub bodies: Bodies,
    /// What may be picked is what the choice promises.
    pub chooser: Chooser,
}

impl Driver for Registered {
    ghost knows = { λ registered body. body < length (entries_of registered.bodies) };

    ghost legal = { λ registered.
        chosen_by (entries_of registered.bodies) registered.chooser };

    ghost heard = { λ registered hearing. Unit {0} };

    ghost may_end = { λ registered. ⊥ };

    ghost ended = { λ registered ending hearing. ⊥ };

    fn act(
        &mut self,
        body: BodyId,
        _entries: u64,
        fields: &Fields,
        view: &View,
    ) -> Result<Act, Failure> {
        Ok(self.bodies.next(body, fields, view)?)
    }

    fn pick(&mut self, count: u32, entries: u64) -> Result<u32, Failure> {
        Ok(self.chooser.choose(count, entries))
    }

    fn tell(&mut self, _entry: &Entry, _entries: u64) -> Result<(), Failure> {
        Ok(())
    }
}
