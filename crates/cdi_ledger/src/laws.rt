//! The laws of the ledger. A call of one does nothing: its contract is the law.
ghost use Rattle.cdi_machine.specs.Tables.{Tables};
ghost use Rattle.cdi_ledger.specs.Ledger.{KeepsOrder, KeepsOrderIfShort};
ghost use Rattle.cdi_ledger.specs.Ends.{EndsNested, EndsNestedIfShort, LeavesTidy, LeavesNothing, OrdersAll, MarksOnce, MarksOnceIfShort, OwnersAreSmaller, OneInAContext, OneOfTheApplication, RefersOwn, BodiesAreFarewells, BodiesAreFarewellsIfShort, OneInAContextIfShort};
ghost use Rattle.cdi_ledger.specs.Callbacks.{FarewellsInDestruction, FarewellsInDestructionIfShort, BeginsOnlyAtMark, BeginsOnlyAtMarkIfShort, StartsAtMostOnce};
ghost use Rattle.cdi_ledger.specs.BodyReferences.{LocalsAreOwn, ParametersAreOwn};
ghost use Rattle.cdi_ledger.specs.Stories.{AddsItsTrace};

use cdi_machine::Driver;

/// At the end of each command, cut or not, the entries and marks of every number stand in order: `new`, `ready`,
/// `end`, a mark, `gone`, or `new`, `drop`, or the front of one of these. Numbers are given from 1, one after another, and
/// a body runs on an instance only from its `new` to its `gone` or `drop`. So it is also if memory runs out in a command,
/// at any point of it; that command is the last one, since it halts the container. With memory also: at a further `new` of an
/// application-scoped bean each earlier one has its `drop` or `end`, where places tell beans apart; and where an instance is
/// gone, each destruction that began since its `end` is over.
#[tactic(auto, using(crate::proofs::Ledgered::keeps_order, crate::proofs::Ledgered::if_short, crate::proofs::Orders::orders_all))]
pub fn law_order<D: Driver>(driver: &D)
    ensures with_memory { (tables : Tables) → KeepsOrder tables (D.legal driver.now) }
    ensures short_of_memory { (tables : Tables) → KeepsOrderIfShort tables (D.legal driver.now) }
    ensures all { (tables : Tables) → OrdersAll tables (D.legal driver.now) }
{
    let _driver = driver;
}

/// A command that isn't cut leaves nothing under way: each creation has come to its `ready` or `drop`, and each destruction
/// to its `gone`. Each live instance is ready and stands where its owner says: in its context for its bean, or among the
/// dependents of an instance that lives, which has a smaller number; and nothing stands anywhere else. A shutdown that
/// isn't cut is answered that it is done, and leaves nothing: every number that was given is dropped or gone (Jakarta CDI 4.0,
/// *Destruction of objects with scope @Dependent*, *Application context lifecycle*).
/// The mark of a destruction stands at most once, and once where the instance is gone, also if memory runs out.
#[tactic(auto, using(crate::proofs::Settled::leaves_tidy, crate::proofs::Settled::leaves_nothing, crate::proofs::Marks::marks_once, crate::proofs::Marks::marks_if_short))]
pub fn law_ends<D: Driver>(driver: &D)
    ensures tidy { (tables : Tables) → LeavesTidy tables (D.legal driver.now) }
    ensures nothing { (tables : Tables) → LeavesNothing tables (D.legal driver.now) }
    ensures marked { (tables : Tables) → MarksOnce tables (D.legal driver.now) }
    ensures marked_short_of_memory { (tables : Tables) → MarksOnceIfShort tables (D.legal driver.now) }
{
    let _driver = driver;
}

/// Destructions are nested: where an instance is gone, each destruction that began since its own is over, and those that
/// were under way when its own began still are. So it is also if memory runs out.
#[tactic(auto, using(crate::proofs::Nesting::ends_nested, crate::proofs::Nesting::nested_if_short))]
pub fn law_nested<D: Driver>(driver: &D)
    ensures with_memory { (tables : Tables) → EndsNested tables (D.legal driver.now) }
    ensures short_of_memory { (tables : Tables) → EndsNestedIfShort tables (D.legal driver.now) }
{
    let _driver = driver;
}

/// An instance is born right behind its `new`, for an owner that its bean's scope allows, and of one bean a context has one
/// instance at a time: where another is born, each earlier one is dropped, or its destruction has begun. In entries alone,
/// where places tell beans apart: at a further `new` of an application-scoped bean each earlier one has its `drop` or `end`
/// (Jakarta CDI 4.0, *Normal scopes and pseudo-scopes*).
#[tactic(auto, using(crate::proofs::Births::one_in_a_context, crate::proofs::Births::one_of_the_application, crate::proofs::Births::one_if_short))]
pub fn law_one_instance<D: Driver>(driver: &D)
    ensures in_a_context { (tables : Tables) → OneInAContext tables (D.legal driver.now) }
    ensures short_of_memory { (tables : Tables) → OneInAContextIfShort tables (D.legal driver.now) }
    ensures of_the_application { (tables : Tables) →
        OneOfTheApplication tables (D.legal driver.now) }
{
    let _driver = driver;
}

/// At the end of each command, cut or not, an injected field that refers to a live instance by itself, and not through a
/// client proxy, refers to a dependent of its own instance: no other instance holds a dependent (Jakarta CDI 4.0, *Dependent
/// objects*). And whenever a body gives its next act, each of its locals that refers to a live instance by itself refers to a
/// dependent of the body's own instance (Jakarta CDI 4.0, *Programmatic lookup*), and each of its parameters that does so to a
/// dependent of that instance, to one of a product that is being made, or to one that is there for the time of an invocation
/// (Jakarta CDI 4.0, *Dependent objects destruction*).
#[tactic(auto, using(crate::proofs::Referred::refers_own, crate::proofs::BodyReferences::locals_are_own, crate::proofs::BodyReferences::parameters_are_own))]
pub fn law_references<D: Driver>(driver: &D)
    ensures own { (tables : Tables) → RefersOwn tables (D.legal driver.now) }
    ensures locals { (tables : Tables) → LocalsAreOwn tables (D.legal driver.now) }
    ensures parameters { (tables : Tables) → ParametersAreOwn tables (D.legal driver.now) }
{
    let _driver = driver;
}

/// A body starts on an instance only from its `new` to its `gone` or `drop`; and between its `end` and its `gone` only its farewell runs on it: a body that starts there is of a pre-destroy
/// callback of its class, or of a method of its class that its own body called right before. So it is also if memory runs
/// out (Jakarta Interceptors 2.1, *Interceptor Methods for Lifecycle Event Callbacks*).
#[tactic(auto, using(crate::proofs::Farewells::bodies_are_farewells, crate::proofs::Farewells::farewells_if_short))]
pub fn law_bodies<D: Driver>(driver: &D)
    ensures with_memory { (tables : Tables) → BodiesAreFarewells tables (D.legal driver.now) }
    ensures short_of_memory { (tables : Tables) →
        BodiesAreFarewellsIfShort tables (D.legal driver.now) }
{
    let _driver = driver;
}

/// The bodies of a pre-destroy chain, and the callbacks, run in the destruction of their instance alone: if a callback's
/// place is no other body's, and an interceptor's places are its own, such a body starts only between the instance's `end`
/// and its `gone`. So it is also if memory runs out (Jakarta Interceptors 2.1, *Interceptor Methods for Lifecycle Event
/// Callbacks*).
#[tactic(auto, using(crate::proofs::Callbacks::farewells_in_destruction, crate::proofs::Callbacks::farewells_in_short))]
pub fn law_callbacks<D: Driver>(driver: &D)
    ensures with_memory { (tables : Tables) → FarewellsInDestruction tables (D.legal driver.now) }
    ensures short_of_memory { (tables : Tables) →
        FarewellsInDestructionIfShort tables (D.legal driver.now) }
{
    let _driver = driver;
}

/// The first body of a pre-destroy chain and its callbacks starts nowhere but right behind the mark of the destruction, if
/// also the first interceptor stands in the chain once, and the first callback's place is no further one's. Only where no
/// interceptor stands before the callbacks may a body that proceeds run them again. So it is also if memory runs out. So an
/// interceptor's body that is the first starts at most once.
#[tactic(auto, using(crate::proofs::Firsts::begins_only_at_mark, crate::proofs::Firsts::begins_only_if_short, crate::proofs::Counts::starts_at_most_once))]
pub fn law_firsts<D: Driver>(driver: &D)
    ensures with_memory { (tables : Tables) → BeginsOnlyAtMark tables (D.legal driver.now) }
    ensures short_of_memory { (tables : Tables) →
        BeginsOnlyAtMarkIfShort tables (D.legal driver.now) }
    ensures at_most_once { (tables : Tables) → StartsAtMostOnce tables (D.legal driver.now) }
{
    let _driver = driver;
}

/// An owner is older than what it owns: at the end of each command, cut or not, its number is smaller (Jakarta CDI 4.0,
/// *Dependent objects*).
#[tactic(auto, using(crate::proofs::Settled::owners_are_smaller))]
pub fn law_owners<D: Driver>(driver: &D)
    ensures smaller { (tables : Tables) → OwnersAreSmaller tables (D.legal driver.now) }
{
    let _driver = driver;
}

/// The entries that a command adds to the items are its trace. So it is also if memory runs out.
#[tactic(auto, using(crate::proofs::Traces::adds_its_trace))]
pub fn law_traces<D: Driver>(driver: &D)
    ensures with_memory { (tables : Tables) → AddsItsTrace tables (D.legal driver.now) ⊥ }
    ensures short_of_memory { (tables : Tables) →
        AddsItsTrace tables (D.legal driver.now) (Unit {0}) }
{
    let _driver = driver;
}
