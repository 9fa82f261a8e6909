//! The laws of a container. A call of one of these does nothing: its contract is the law.
ghost use Rattle.cdi_bodies.specs.Table.{entries_of};
ghost use Rattle.cdi_deployment.specs.declared.deployment.Deployment.{Deployment};
ghost use Rattle.cdi_machine.specs.Registered.{in_shapes, legal_of};
ghost use Rattle.cdi_machine.specs.Tables.{Tables};
ghost use Rattle.cdi_run_tables.specs.Machine.{machine_tables};
ghost use Rattle.cdi_run_tables.specs.declared.tables.RunTables.{RunTables};
ghost use Rattle.cdi_whole.specs.Fits.{Fits};
ghost use Rattle.cdi_container.specs.Accepted.{IsAccepted};
ghost use Rattle.cdi_container.specs.History.{KeepsOrder};
ghost use Rattle.cdi_container.specs.Missing.{NoneMissed};
ghost use Rattle.cdi_container.specs.OnItsWay.{AlwaysAnswers, StaysOnItsWay};
ghost use Rattle.cdi_container.specs.Resting.{NothingRuns};
ghost use Rattle.cdi_container.specs.Sound.{IsSound};
ghost use Rattle.cdi_container.specs.Thrown.{NamesThrown};
ghost use Rattle.cdi_container.specs.Traces.{TraceTells};
ghost use Rattle.cdi_container.specs.Turns.{AnswersByTurns, EndsByTurns};
ghost use Rattle.cdi_machine.specs.Laws.{IsWithin};

use cdi_accepted::laws as sites;
use cdi_bodies::Bodies;
use cdi_ledger::laws as ledger;
use cdi_machine::{Driver, laws as machine};
use cdi_whole::laws as whole;

/// In a container whose tables and bodies fit one another, as those of every deployment that is [accepted](crate::accept)
/// do, no look-up fails: a command that isn't refused, whichever it is, never comes to a point at which something that the
/// machine looks up isn't there. That holds until the container halts, and also if memory runs out on the way.
pub fn law_nothing_missing<D: Driver>(driver: &D)
    ensures with_memory { (tables : Tables) → NoneMissed tables (D.legal driver.now) ⊥ }
    ensures short_of_memory { (tables : Tables) →
        NoneMissed tables (D.legal driver.now) (Unit {0}) }
{
    whole::law_nothing_missing(driver);
}

/// In a container whose tables and bodies fit one another, the class of each exception that is replied, to its start or to
/// a command, is a name of its table, so that the reply's line has the text of that name.
pub fn law_thrown_has_name<D: Driver>(driver: &D)
    ensures { (tables : RunTables) → Fits (machine_tables tables) (D.legal driver.now)
        → NamesThrown tables (D.legal driver.now) }
{
    whole::law_thrown_has_text(driver);
}

/// In a container of a deployment that is [accepted](crate::accept) with these bodies no command misses what has to be there;
/// what was written is in order; each destruction begins its pre-destroy chain and callbacks exactly once, right behind its mark,
/// which stands once where the instance is gone; nothing runs between two commands; and each exception that is replied is told by
/// a name. So it is also if a command was cut or memory ran out in one (Jakarta CDI 4.0, *Lifecycle of managed beans*; Jakarta
/// Interceptors 2.1, *Interceptor Methods for Lifecycle Event Callbacks*).
pub fn law_accepted_is_sound(bodies: &Bodies)
    ensures { (deployment : Deployment) (tables : RunTables)
        → IsAccepted deployment (entries_of bodies.now) tables
        → IsSound tables (legal_of (entries_of bodies.now)) }
{
    sites::law_farewells_begin_once(bodies);
}

/// What a container has written since its start is in order, also if a command was cut or memory ran out in one: the
/// entries and marks of each number stand as `new`, `ready`, `end`, a mark, `gone`, or `new`, `drop`, or the front of one
/// of these, so each destruction begins its callbacks at most once. Numbers are given from 1, one after another, and no
/// body starts on an instance that is gone (Jakarta CDI 4.0, *Lifecycle of contextual instances*).
pub fn law_order<D: Driver>(driver: &D)
    ensures { (tables : Tables) → KeepsOrder tables (D.legal driver.now) }
{
    ledger::law_order(driver);
}

/// Whatever state a container is in, each command has an answer, if there is memory and bodies give what lies in their
/// shapes: the machine ends, and its rules leave no gap.
pub fn law_always_answers(bodies: &Bodies)
    ensures { (tables : Tables) → AlwaysAnswers tables (in_shapes (entries_of bodies.now)) }
{
    machine::law_ends(bodies);
}

/// What stands written of a command, also if memory ran out in it, is the front of what a run of it writes that has
/// memory enough, and whose further acts need only lie in their bodies' shapes.
pub fn law_on_its_way<D: Driver>(driver: &D, bodies: &Bodies)
    ensures { (tables : Tables) → StaysOnItsWay tables
        (D.legal driver.now) (in_shapes (entries_of bodies.now)) }
{
    machine::law_on_its_way(driver, bodies);
}

/// Behind commands, and lines that are none, nothing is running in a container unless it has halted: no invocation is under way, no instance has a running body, and nothing is borrowed.
pub fn law_nothing_runs<D: Driver>(driver: &D)
    ensures { (tables : Tables) → NothingRuns tables (D.legal driver.now) }
{
    machine::law_rests(driver);
}

/// What a command did is told by its trace: if two answers to one command, from one state and with memory enough, wrote the
/// same entries, they have the same reply and leave the same state.
pub fn law_trace_tells<D: Driver>(driver: &D)
    ensures { (tables : Tables) → TraceTells tables (D.legal driver.now) }
{
    machine::law_one_run(driver);
}

/// Whatever the turns are, a command that was started is answered, and leaves the container, as one that is carried out at once
/// may: what a turn leaves of it is left of it still, and if the turn is its last, then it is answered so.
///
/// And it ends: turns that go on write no more entries than its container lets a command have.
pub fn law_turns<D: Driver, E: Driver>(driver: &D, wider: &E)
    ensures ends { (tables : Tables) → EndsByTurns tables (E.legal wider.now) }
    ensures answers { IsWithin (D.legal driver.now) (E.legal wider.now) → (tables : Tables)
        → AnswersByTurns tables (D.legal driver.now) (E.legal wider.now) }
{
    let _driver = driver;
    let _wider = wider;
}
