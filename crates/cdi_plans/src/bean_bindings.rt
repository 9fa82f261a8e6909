//! The bindings of a bean, gathered once.
ghost use Rattle.std.specs.Prelude.{◌≡◌, ◌||◌, [], false, map, IfOk, OnOk};
ghost use Rattle.std.specs.List.{list_any};
ghost use Rattle.cdi_beans.specs.declared.bean.EnabledInterceptor.{EnabledInterceptor as Enabled};
ghost use Rattle.cdi_plans.specs.BeanBindings as spec;
ghost use Rattle.cdi_plans.specs.Chains.{is_bound as is_bound_by, places_from};

use crate::chain::is_bound;
use cdi_base::{InterceptorMethod, Seq};
use cdi_beans::EnabledInterceptor;
use cdi_quals::Qualifier;
use std::alloc::{AllocError, Global};
use std::marker::Model;

/// The bindings of a bean and of its members, so that each interceptor is asked without a look-up of the members. Members without
/// bindings of their own all have the same chain, so that only whether there are any is kept of them.
#[derive(Drop)]
pub(crate) struct BeanBindings<'a> {
    /// The class-level bindings of the bean.
    of_class: &'a [Qualifier],
    /// Whether the calls of a member without bindings of its own are intercepted.
    has_plain: bool,
    /// The bindings of those members that have some of their own.
    own: Seq<&'a [Qualifier]>,
}

impl<'a> Model for BeanBindings<'a> {
    ghost use Rattle.std.specs.Prelude.{map};
    ghost use Rattle.cdi_plans.specs.BeanBindings.{GatheredBindings};

    ghost Value = { GatheredBindings };

    ghost view = { λ b. record {
      of_class = b.of_class.now;
      has_plain = b.has_plain;
      own = map (λ q. q.now) b.own;
    } };
}

/// Whether an interceptor stands in the chain of a member with one of these lists of bindings of its own.
fn is_bound_to_some(
    lists: &[&[Qualifier]],
    of_class: &[Qualifier],
    interceptor: &EnabledInterceptor,
) -> bool
    ensures { result ≡ list_any (spec.is_bound_to of_class.now interceptor.now)
        (map (λ q. q.now) lists.now) }
{
    for own in lists {
        if is_bound(InterceptorMethod::AroundInvoke, own, of_class, interceptor) {
            return true;
        }
    }
    false
}

/// Whether an interceptor has a lifecycle method, and stands round that of what has these class-level bindings.
fn is_bound_by_class(
    method: InterceptorMethod,
    of_class: &[Qualifier],
    interceptor: &EnabledInterceptor,
) -> bool
    ensures { result ≡ is_bound_by method of_class.now interceptor.now }
{
    is_bound(method, &[], of_class, interceptor)
}

/// Whether an interceptor stands in a chain of the lifecycle of a bean with these class-level bindings.
pub(crate) fn stands_in_lifecycle(of_class: &[Qualifier], interceptor: &EnabledInterceptor) -> bool
    ensures { result ≡ spec.stands_in_lifecycle of_class.now interceptor.now }
{
    is_bound_by_class(InterceptorMethod::AroundConstruct, of_class, interceptor)
        || is_bound_by_class(InterceptorMethod::PostConstruct, of_class, interceptor)
        || is_bound_by_class(InterceptorMethod::PreDestroy, of_class, interceptor)
}

impl<'a> BeanBindings<'a> {
    /// Those of a bean with these class-level bindings, before its members.
    pub(crate) fn of_class(alloc: Global, of_class: &'a [Qualifier]) -> BeanBindings<'a>
        ensures { result ≡ record { of_class = of_class.now; has_plain = false; own = [] } }
    {
        BeanBindings {
            of_class,
            has_plain: false,
            own: Seq::empty(alloc),
        }
    }

    /// Adds a member whose calls are intercepted, by its own bindings.
    pub(crate) fn add(&mut self, own: &'a [Qualifier]) -> Result<(), AllocError>
        ensures of_class { OnOk result (self.new.of_class ≡ self.old.of_class) }
        ensures member { OnOk result ((j : Enabled) → spec.stands_round_member self.new j
            ≡ (spec.is_bound_to self.old.of_class j own.now
            || spec.stands_round_member self.old j)) }
    {
        if own.is_empty() {
            self.has_plain = true;
            return Ok(());
        }
        self.own.push(own)?;
        Ok(())
    }

    /// Whether an interceptor stands in the chain of a member.
    fn stands_round_member(&self, interceptor: &EnabledInterceptor) -> bool
        ensures { result ≡ spec.stands_round_member self.now interceptor.now }
    {
        (self.has_plain
            && is_bound(
                InterceptorMethod::AroundInvoke,
                &[],
                self.of_class,
                interceptor,
            ))
            || is_bound_to_some(self.own.as_slice(), self.of_class, interceptor)
    }

    /// Whether an interceptor stands in a chain of the bean.
    fn stands_in_some(&self, interceptor: &EnabledInterceptor) -> bool
        ensures { result ≡ spec.stands_in_some self.now interceptor.now }
    {
        self.stands_round_member(interceptor) || stands_in_lifecycle(self.of_class, interceptor)
    }

    /// Those of some interceptors that stand in a chain of the bean, by their places, in their order.
    pub(crate) fn places_among(
        &self,
        alloc: Global,
        interceptors: &[EnabledInterceptor],
    ) -> Result<Seq<usize>, AllocError>
        ensures { IfOk result
            (λ places. places ≡ places_from (spec.stands_in_some self.now) 0 interceptors.now) }
    {
        let mut places = Seq::empty(alloc);
        for (place, interceptor) in interceptors.iter().enumerate() {
            if self.stands_in_some(interceptor) {
                places.push(place)?;
            }
        }
        Ok(places)
    }
}
