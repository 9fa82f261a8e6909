//! A chain of interceptors.
ghost use Rattle.std.specs.Prelude.{◌≡◌, ◌↔◌, [], length, slice_get, is_some, option_map, IsTrue, IfOk};
ghost use Rattle.std.specs.List.{list_any};
ghost use Rattle.cdi_quals.specs.Qualifiers.{has, has_all};
ghost use Rattle.cdi_plans.specs.Bindings as bindings;
ghost use Rattle.cdi_plans.specs.Chains as spec;

use cdi_base::{InterceptorMethod, Seq};
use cdi_beans::EnabledInterceptor;
use cdi_quals::Qualifier;
use std::alloc::{AllocError, Global};
use std::marker::Model;

/// The interceptors that stand round a member or a lifecycle method of a bean, in their order (Jakarta Interceptors 2.1, *Interceptor
/// Ordering*). Contracts see the list of their places among the enabled interceptors. A question walks all enabled interceptors.
#[derive(Drop)]
pub struct Chain<'a> {
    interceptors: &'a [EnabledInterceptor],
    method: InterceptorMethod,
    /// The bindings of the member; none if its calls aren't intercepted.
    own: Option<&'a [Qualifier]>,
    of_class: &'a [Qualifier],
}

impl<'a> Model for Chain<'a> {
    ghost use Rattle.std.specs.Prelude.{List, ℕ, option_map};
    ghost use Rattle.cdi_plans.specs.Chains.{chain_with};

    ghost Value = { List ℕ };

    ghost view = { λ c. chain_with c.method (option_map (λ q. q.now) c.own) c.of_class.now
        c.interceptors.now };
}

/// Whether an interceptor has a method.
fn has_method(method: InterceptorMethod, interceptor: &EnabledInterceptor) -> bool
    ensures { result ≡ is_some (spec.method_of method interceptor.now) }
{
    match method {
        InterceptorMethod::AroundInvoke => interceptor.invoke.is_some(),
        InterceptorMethod::AroundConstruct => interceptor.construct.is_some(),
        InterceptorMethod::PostConstruct => interceptor.post.is_some(),
        InterceptorMethod::PreDestroy => interceptor.pre.is_some(),
    }
}

/// Whether one of some bindings is of the type of another.
fn names_type(own: &[Qualifier], other: &Qualifier) -> bool
    ensures { result ≡ bindings.names_type own.now other.now }
{
    own.iter().any(|binding| binding.name == other.name)
}

/// Whether one of some bindings is a required one.
pub(crate) fn have(own: &[Qualifier], required: &Qualifier) -> bool
    ensures { result ≡ has own.now required.now }
{
    own.iter().any(|binding| required.same_binding(binding))
}

/// Whether a class-level binding is a required one, and the member names no binding of its type.
fn is_met_by_class(own: &[Qualifier], binding: &Qualifier, required: &Qualifier) -> bool
    ensures { result ≡ bindings.is_met_by_class own.now required.now binding.now }
{
    !names_type(own, binding) && required.same_binding(binding)
}

/// Whether one of some class-level bindings is a required one that a member with these bindings has from its class.
fn class_has(own: &[Qualifier], of_class: &[Qualifier], required: &Qualifier) -> bool
    ensures { result ≡ list_any (bindings.is_met_by_class own.now required.now) of_class.now }
{
    of_class
        .iter()
        .any(|binding| is_met_by_class(own, binding, required))
}

/// Whether a member with these bindings, of a bean with these class-level ones, has a required one.
fn is_had(own: &[Qualifier], of_class: &[Qualifier], required: &Qualifier) -> bool
    ensures { result ≡ has (bindings.bindings_had own.now of_class.now) required.now }
{
    have(own, required) || class_has(own, of_class, required)
}

/// Whether a member with these bindings, of a bean with these class-level ones, has all required ones.
fn are_had(own: &[Qualifier], of_class: &[Qualifier], required: &[Qualifier]) -> bool
    ensures { result ≡ has_all (bindings.bindings_had own.now of_class.now) required.now }
{
    required
        .iter()
        .all(|binding| is_had(own, of_class, binding))
}

/// Whether an interceptor stands round the method of what has these bindings of its own and of its class.
pub(crate) fn is_bound(
    method: InterceptorMethod,
    own: &[Qualifier],
    of_class: &[Qualifier],
    interceptor: &EnabledInterceptor,
) -> bool
    ensures { result
        ≡ spec.is_bound method (bindings.bindings_had own.now of_class.now) interceptor.now }
{
    has_method(method, interceptor) && are_had(own, of_class, interceptor.bindings.as_slice())
}

/// How many interceptors stand in a chain.
fn count_of(
    interceptors: &[EnabledInterceptor],
    method: InterceptorMethod,
    own: &[Qualifier],
    of_class: &[Qualifier],
) -> usize
    ensures { result ≡ length
        (spec.chain_of method (bindings.bindings_had own.now of_class.now) interceptors.now) }
{
    let mut count = 0;
    for interceptor in interceptors {
        if is_bound(method, own, of_class, interceptor) {
            count += 1;
        }
    }
    count
}

/// The place of the interceptor at an index of a chain.
fn place_at(
    interceptors: &[EnabledInterceptor],
    method: InterceptorMethod,
    own: &[Qualifier],
    of_class: &[Qualifier],
    index: usize,
) -> Option<usize>
    ensures { result ≡ slice_get
        (spec.chain_of method (bindings.bindings_had own.now of_class.now) interceptors.now) index }
{
    let mut left = index;
    for (place, interceptor) in interceptors.iter().enumerate() {
        if is_bound(method, own, of_class, interceptor) {
            if left == 0 {
                return Some(place);
            }
            left -= 1;
        }
    }
    None
}

/// The places of the interceptors that stand in a chain.
fn places_in(
    alloc: Global,
    interceptors: &[EnabledInterceptor],
    method: InterceptorMethod,
    own: &[Qualifier],
    of_class: &[Qualifier],
) -> Result<Seq<usize>, AllocError>
    ensures { IfOk result (λ places. places
        ≡ spec.chain_of method (bindings.bindings_had own.now of_class.now) interceptors.now) }
{
    let mut places = Seq::empty(alloc);
    for (place, interceptor) in interceptors.iter().enumerate() {
        if is_bound(method, own, of_class, interceptor) {
            places.push(place)?;
        }
    }
    Ok(places)
}

impl<'a> Chain<'a> {
    /// The chain of a member that has these bindings of its own, none if its calls aren't intercepted, and these of its class.
    pub(crate) fn of_member(
        interceptors: &'a [EnabledInterceptor],
        own: Option<&'a [Qualifier]>,
        of_class: &'a [Qualifier],
    ) -> Chain<'a>
        ensures { result ≡ spec.chain_with InterceptorMethod.AroundInvoke
            (option_map (λ q. q.now) own.entry) of_class.now interceptors.now }
    {
        Chain {
            interceptors,
            method: InterceptorMethod::AroundInvoke,
            own,
            of_class,
        }
    }

    /// The chain of a lifecycle method of a bean with these class-level bindings.
    pub(crate) fn of_lifecycle(
        interceptors: &'a [EnabledInterceptor],
        method: InterceptorMethod,
        of_class: &'a [Qualifier],
    ) -> Chain<'a>
        ensures { result ≡ spec.chain_of method of_class.now interceptors.now }
    {
        Chain {
            interceptors,
            method,
            own: Some(&[]),
            of_class,
        }
    }

    /// How many interceptors stand in the chain.
    pub fn len(&self) -> usize
        ensures { result ≡ length self.now }
    {
        match self.own {
            Some(own) => count_of(self.interceptors, self.method, own, self.of_class),
            None => 0,
        }
    }

    /// Whether no interceptor stands in the chain.
    pub fn is_empty(&self) -> bool
        ensures { IsTrue result ↔ (self.now ≡ []) }
    {
        self.len() == 0
    }

    /// The interceptor at an index of the chain, by its place among the enabled ones. There is none at the end.
    pub fn at(&self, index: usize) -> Option<usize>
        ensures { result ≡ slice_get self.now index }
    {
        match self.own {
            Some(own) => place_at(self.interceptors, self.method, own, self.of_class, index),
            None => None,
        }
    }

    /// The interceptors of the chain, by their places among the enabled ones, in their order.
    pub fn places(&self, alloc: Global) -> Result<Seq<usize>, AllocError>
        ensures { IfOk result (λ places. places ≡ self.now) }
    {
        match self.own {
            Some(own) => places_in(alloc, self.interceptors, self.method, own, self.of_class),
            None => Ok(Seq::empty(alloc)),
        }
    }
}
