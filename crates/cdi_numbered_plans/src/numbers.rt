//! Whether the places of interceptors, in the plan of a product and round observers, can be numbered.
ghost use Rattle.std.specs.Prelude.{◌≡◌};
ghost use Rattle.std.specs.List.{list_all};
ghost use Rattle.cdi_numbered_plans.specs.Numbered as numbered;
ghost use Rattle.cdi_numbered_plans.specs.Numbers as spec;
ghost use Rattle.cdi_plans.specs.declared.plan.Plan.TheVariants as plans;

use crate::numbering::Numbering;
use cdi_event_tables::PlannedObserver;
use cdi_plans::{InjectedMethod, ProductPlan, Source};

fn is_number(place: usize) -> bool
    ensures { result ≡ spec.is_number place }
{
    place < 4_294_967_296
}

fn are_numbers(places: &[usize]) -> bool
    ensures { result ≡ spec.are_numbers places.now }
{
    places.iter().all(|place| is_number(*place))
}

fn numbers_member(member: &InjectedMethod) -> bool
    ensures { result ≡ spec.numbers_member member.now }
{
    are_numbers(member.chain.as_slice())
}

fn number_members(members: &[InjectedMethod]) -> bool
    ensures { result ≡ list_all spec.numbers_member members.now }
{
    members.iter().all(numbers_member)
}

fn numbers_source(source: &Source) -> bool
    ensures { result ≡ spec.numbers_source source.now }
{
    match source {
        Source::ProducerMethod(method) => numbers_member(method),
        Source::ProducerField(_field) => true,
    }
}

/// Whether the places of the interceptors that the plan of a product names are below 4,294,967,296.
pub fn numbers_product(plan: &ProductPlan) -> bool
    ensures { result ≡ spec.numbers_product plan.now }
{
    numbers_source(&plan.source) && number_members(plan.disposers.as_slice())
}

/// Whether the places of the interceptors round some observers are below 4,294,967,296.
pub fn observers_have_numbers(observers: &[PlannedObserver]) -> bool
    ensures { result ≡ spec.observers_have_numbers observers.now }
{
    observers
        .iter()
        .all(|observer| numbers_member(&observer.member))
}

fn numbers_observer(observer: &PlannedObserver) -> bool
    ensures { result ≡ spec.numbers_observer observer.now }
{
    is_number(observer.bean) && numbers_member(&observer.member)
}

fn numbers_observers(observers: &[PlannedObserver]) -> bool
    ensures { result ≡ spec.numbers_observers observers.now }
{
    observers.iter().all(numbers_observer)
}

impl Numbering<'_> {
    /// Whether there are at most 4,294,967,296 beans.
    pub fn has_few_beans(&self) -> bool
        ensures { result ≡ numbered.has_few_beans self.now }
    {
        self.resolver.beans().len() <= 4_294_967_296
    }

    /// Whether what the plan of a product names has numbers of 32 bits: there are at most 4,294,967,296 beans, and the places of its
    /// interceptors are below that.
    pub fn can_number(&self, plan: &ProductPlan) -> bool
        ensures { result ≡ numbered.can_number self.now (plans.Product plan.now) }
    {
        self.has_few_beans() && numbers_product(plan)
    }

    /// Whether what some observers name has numbers of 32 bits: there are at most 4,294,967,296 beans, and the places of the observers'
    /// beans and of their interceptors are below that.
    pub(crate) fn can_number_observers(&self, observers: &[PlannedObserver]) -> bool
        ensures { result ≡ numbered.can_number_observers self.now observers.now }
    {
        self.has_few_beans() && numbers_observers(observers)
    }
}
