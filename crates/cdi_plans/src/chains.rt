//! The chains of all beans.
ghost use Rattle.std.specs.Prelude.{◌≡◌, ◌==◌, [], Some, ℕ, position, nat_eq, map, option_map, option_and_then, IfOk, IsTrue};
ghost use Rattle.std.specs.HashMap.{get};
ghost use Rattle.std.specs.List.{find, list_all, list_any};
ghost use Rattle.std.specs.Option.{option_copied};
ghost use Rattle.cdi_beans.specs.declared.bean.EnabledInterceptor.{EnabledInterceptor as Enabled};
ghost use Rattle.cdi_plans.specs.BeanBindings as gathered;
ghost use Rattle.cdi_plans.specs.Bindings.{class_bindings};
ghost use Rattle.cdi_plans.specs.Chains as spec;
ghost use Rattle.cdi_plans.specs.Meeting as meeting;

use crate::bean_bindings::{BeanBindings, stands_in_lifecycle};
use crate::bindings::{ClassBindings, MemberBindings, bindings_of_classes};
use crate::chain::{Chain, have, is_bound};
use cdi_base::{InterceptorMethod, Name, Seq};
use cdi_beans::{Bean, BeanMember, EnabledInterceptor};
use cdi_deployment::Deployment;
use cdi_quals::{Qualifier, QualifierTypes};
use std::alloc::{AllocError, Global};
use std::collections::HashMap;
use std::marker::Model;

/// The bindings of all classes and the enabled interceptors, which give the chains of all beans (Jakarta Interceptors 2.1, *Interceptor
/// Resolution*). Contracts see both.
pub struct Chains {
    classes: Seq<ClassBindings>,
    places: HashMap<Name, usize>,
    interceptors: Seq<EnabledInterceptor>,
}

/// In one call, so that the proof of each function that owns chains has one step here, and not one for each of its parts.
impl Drop for Chains {
    fn drop(self) {
        let Self {
            classes: _classes,
            places: _places,
            interceptors: _interceptors,
        } = self;
    }
}

impl Model for Chains {
    ghost use Rattle.std.specs.Prelude.{◌≡◌, ◌==◌, ℕ, position, nat_eq};
    ghost use Rattle.std.specs.HashMap.{get};
    ghost use Rattle.cdi_plans.specs.Chains.{ChainTables};

    ghost Value = { ChainTables };

    ghost view = { λ t. record { classes = t.classes; interceptors = t.interceptors } };

    ghost invariant = { λ t. (name : ℕ)
        → get nat_eq t.places name ≡ position (λ c. c.name == name) t.classes };
}

/// The place of the first class of each name.
fn places_of(alloc: Global, classes: &[ClassBindings]) -> Result<HashMap<Name, usize>, AllocError>
    ensures { IfOk result (λ places. (name : ℕ)
        → get nat_eq places name ≡ position (λ c. c.name == name) classes.now) }
{
    let mut places = HashMap::new(alloc);
    for (place, class) in classes.iter().enumerate() {
        if !places.contains_key(&class.name) {
            places.insert(class.name, place)?;
        }
    }
    Ok(places)
}

/// The bindings of the member with a name.
fn member_named(members: &[MemberBindings], name: Name) -> Option<&[Qualifier]>
    ensures { option_map (λ q. q.now) result
        ≡ option_map (λ m. m.bindings) (find (λ m. m.name == name) members.now) }
{
    for member in members {
        if member.name == name {
            return Some(member.bindings.as_slice());
        }
    }
    None
}

/// The bindings of the member of a class with a name.
fn member_of(class: Option<&ClassBindings>, name: Name) -> Option<&[Qualifier]>
    ensures { option_map (λ q. q.now) result
        ≡ option_and_then (spec.member_level_in name) (option_copied class.entry) }
{
    match class {
        Some(class) => member_named(class.members.as_slice(), name),
        None => None,
    }
}

/// Whether one of some interceptors stands in the chain of a member with these bindings of its own.
fn is_some_bound_to(
    own: &[Qualifier],
    of_class: &[Qualifier],
    interceptors: &[EnabledInterceptor],
) -> bool
    ensures { result
        ≡ list_any (λ j. gathered.is_bound_to of_class.now j own.now) interceptors.now }
{
    interceptors.iter().any(|interceptor| is_bound(
        InterceptorMethod::AroundInvoke,
        own,
        of_class,
        interceptor,
    ))
}

/// Whether both of these class-level bindings meet a required one, or neither do.
fn meet_both(some: &[Qualifier], others: &[Qualifier], required: &Qualifier) -> bool
    ensures { result ≡ meeting.meet_both some.now others.now required.now }
{
    if have(some, required) {
        have(others, required)
    } else {
        !have(others, required)
    }
}

/// Whether both of these class-level bindings meet the same bindings of an interceptor.
fn meet_same(some: &[Qualifier], others: &[Qualifier], interceptor: &EnabledInterceptor) -> bool
    ensures { result ≡ meeting.meet_same some.now others.now interceptor.now }
{
    interceptor
        .bindings
        .as_slice()
        .iter()
        .all(|required| meet_both(some, others, required))
}

/// Whether they do of each of some interceptors.
fn meet_same_of_all(
    some: &[Qualifier],
    others: &[Qualifier],
    interceptors: &[EnabledInterceptor],
) -> bool
    ensures { result ≡ list_all (meeting.meet_same some.now others.now) interceptors.now }
{
    interceptors
        .iter()
        .all(|interceptor| meet_same(some, others, interceptor))
}

impl Chains {
    /// The chains of the beans of a deployment, with the types of its bindings and its enabled interceptors in their order.
    pub fn build(
        alloc: Global,
        deployment: &Deployment,
        bindings: &QualifierTypes,
        interceptors: Seq<EnabledInterceptor>,
    ) -> Result<Chains, AllocError>
        ensures { IfOk result (λ chains. chains ≡ record {
          classes = map (class_bindings bindings.now) deployment.now.classes;
          interceptors = interceptors;
        }) }
    {
        let classes = bindings_of_classes(alloc, bindings, deployment.classes.as_slice())?;
        let places = places_of(alloc, classes.as_slice())?;
        Ok(Chains {
            classes,
            places,
            interceptors,
        })
    }

    /// The enabled interceptors in their order.
    pub fn interceptors(&self) -> &[EnabledInterceptor]
        ensures { result.now ≡ self.now.interceptors }
    {
        self.interceptors.as_slice()
    }

    /// The class of a name, if one has it. If several have it, the first one counts.
    fn class(&self, name: Name) -> Option<&ClassBindings>
        ensures { option_copied result ≡ spec.class_named self.now name }
    {
        let place = self.places.get(&name).copied()?;
        self.classes.get(place)
    }

    /// The class-level bindings of a bean, by its class.
    fn class_level(&self, bean: Name) -> &[Qualifier]
        ensures { result.now ≡ spec.class_level self.now bean }
    {
        match self.class(bean) {
            Some(class) => class.bindings.as_slice(),
            None => &[],
        }
    }

    /// A member's own bindings, if its calls are intercepted.
    fn member_level(&self, member: BeanMember) -> Option<&[Qualifier]>
        ensures { option_map (λ q. q.now) result ≡ spec.member_level self.now member }
    {
        member_of(self.class(member.class), member.name)
    }

    /// The chain of a member of a bean, which is told by its class. The class-level bindings of the bean's class count, also if another
    /// class declares the member; a binding of the member's own goes before one of the class of the same type. A member that isn't
    /// known, and one whose calls aren't intercepted, has an empty chain.
    pub fn invoke_chain(&self, bean: Name, member: BeanMember) -> Chain<'_>
        ensures { result ≡ spec.invoke_chain self.now bean member }
    {
        Chain::of_member(
            self.interceptors.as_slice(),
            self.member_level(member),
            self.class_level(bean),
        )
    }

    /// Whether the calls of a member are intercepted by the class-level bindings alone: it has none of its own.
    pub fn is_plain(&self, member: BeanMember) -> bool
        ensures { IsTrue result → spec.member_level self.now member ≡ Some [] }
    {
        match self.member_level(member) {
            Some(own) => own.is_empty(),
            None => false,
        }
    }

    /// The chain of the members of a bean that have no bindings of their own ([`Chains::is_plain`]).
    pub fn plain_chain(&self, bean: Name) -> Chain<'_>
        ensures { result ≡ spec.plain_chain self.now bean }
    {
        let interceptors = self.interceptors.as_slice();
        Chain::of_member(interceptors, Some(&[]), self.class_level(bean))
    }

    /// Whether each member is in the same chain for two beans, which are told by their classes: both classes have the same class-level
    /// bindings, or meet the same bindings of the enabled interceptors by theirs. It doesn't look for other reasons.
    pub fn have_same_chains(&self, bean: Name, other: Name) -> bool
        ensures { IsTrue result → spec.HaveSameChains self.now bean other }
    {
        let of_bean = self.class_level(bean);
        let of_other = self.class_level(other);
        of_bean == of_other || meet_same_of_all(of_bean, of_other, self.interceptors.as_slice())
    }

    /// The chain round the construction of a bean, or round its post-construct or pre-destroy callbacks (Jakarta Interceptors 2.1,
    /// *Interceptor Methods for Lifecycle Event Callbacks*), by its class-level bindings.
    pub fn life_chain(&self, bean: Name, method: InterceptorMethod) -> Chain<'_>
        ensures { result ≡ spec.life_chain self.now bean method }
    {
        Chain::of_lifecycle(self.interceptors.as_slice(), method, self.class_level(bean))
    }

    /// The bindings of a bean and of its members.
    fn bindings_of(&self, alloc: Global, bean: &Bean) -> Result<BeanBindings<'_>, AllocError>
        ensures { IfOk result (λ bindings. (j : Enabled)
            → gathered.stands_in_some bindings j ≡ spec.intercepts self.now bean.now j) }
    {
        let mut bindings = BeanBindings::of_class(alloc, self.class_level(bean.class));
        for member in bean.members.as_slice() {
            if let Some(own) = self.member_level(*member) {
                bindings.add(own)?;
            }
        }
        Ok(bindings)
    }

    /// The interceptors that stand in the chains of a bean, by their places among the enabled ones, in their order. It looks up each
    /// member of the bean once, and none if no interceptor is enabled.
    pub fn interceptors_of(&self, alloc: Global, bean: &Bean) -> Result<Seq<usize>, AllocError>
        ensures { IfOk result (λ places. places ≡ spec.interceptors_of self.now bean.now) }
    {
        if self.interceptors.is_empty() {
            return Ok(Seq::empty(alloc));
        }
        let bindings = self.bindings_of(alloc, bean)?;
        let places = bindings.places_among(alloc, self.interceptors.as_slice())?;
        Ok(places)
    }

    /// Whether one of the enabled interceptors stands in the chain of a member of a bean with these class-level bindings, by whether one
    /// stands in that of a member without bindings of its own.
    fn is_member_intercepted(&self, of_class: &[Qualifier], plain: bool, member: BeanMember) -> bool
        requires { plain
            ≡ list_any (λ j. gathered.is_bound_to of_class.now j []) self.now.interceptors }
        ensures { result ≡ list_any (spec.is_bound_with (spec.member_level self.now member)
            of_class.now) self.now.interceptors }
    {
        match self.member_level(member) {
            Some(own) => {
                if own.is_empty() {
                    plain
                } else {
                    is_some_bound_to(own, of_class, self.interceptors.as_slice())
                }
            }
            None => false,
        }
    }

    /// Whether one of the enabled interceptors stands in the chain of one of these members of a bean with these class-level bindings.
    fn is_some_member_intercepted(&self, of_class: &[Qualifier], members: &[BeanMember]) -> bool
        ensures { result ≡ list_any (λ m. list_any (spec.is_bound_with
            (spec.member_level self.now m) of_class.now) self.now.interceptors) members.now }
    {
        let plain = is_some_bound_to(&[], of_class, self.interceptors.as_slice());
        for member in members {
            if self.is_member_intercepted(of_class, plain, *member) {
                return true;
            }
        }
        false
    }

    /// Whether one of the enabled interceptors stands in a chain of the lifecycle of a bean with these class-level bindings.
    fn is_lifecycle_intercepted(&self, of_class: &[Qualifier]) -> bool
        ensures { result
            ≡ list_any (gathered.stands_in_lifecycle of_class.now) self.now.interceptors }
    {
        self.interceptors
            .iter()
            .any(|interceptor| stands_in_lifecycle(of_class, interceptor))
    }

    /// Whether an enabled interceptor stands in a chain of a bean. It looks up each member of the bean at most once.
    pub fn is_intercepted(&self, bean: &Bean) -> bool
        ensures { result ≡ list_any (spec.intercepts self.now bean.now) self.now.interceptors }
    {
        let of_class = self.class_level(bean.class);
        self.is_some_member_intercepted(of_class, bean.members.as_slice())
            || self.is_lifecycle_intercepted(of_class)
    }
}
