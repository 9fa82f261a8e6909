//! What makes plans.
ghost use Rattle.std.specs.Prelude.{◌≡◌, Some, length, option_map, IfOk, IsSome, IsTrue};
ghost use Rattle.std.specs.Option.{option_copied};
ghost use Rattle.cdi_types.specs.Line.{IsLineOf, class_named};
ghost use Rattle.cdi_planner.specs.Codes.{lifecycle as lifecycle_of};
ghost use Rattle.cdi_planner.specs.Inherited as inherited;
ghost use Rattle.cdi_planner.specs.Observers as observers;
ghost use Rattle.cdi_planner.specs.Plans as spec;
ghost use Rattle.cdi_planner.specs.Products.{producer_of, IsPlanBy, IsProductPlan};
ghost use Rattle.cdi_planner.specs.Steps.{first_steps as first_steps_of};
ghost use Rattle.cdi_plans.specs.Chains.{HaveSameChains};
ghost use Rattle.cdi_bean_rules.specs.Limits.{is_producer};

use crate::codes::{business_methods, injected_method, lifecycle};
use crate::observer::observer_in;
use crate::own_parts::{OwnParts, own_parts};
use crate::product::{disposers_of, producer_in, source_of};
use crate::steps::first_steps;
use cdi_base::{InterceptorMethod, Name, Seq};
use cdi_beans::{Bean, BeanKind, ObserverMethod};
use cdi_deployment::{Class, Constructor, Deployment, Member, Observer};
use cdi_plans::Chains;
use cdi_plans::plan::{BusinessMethod, Code, InjectedMethod, Lifecycle, ProductPlan, Step};
use cdi_quals::QualifierTypes;
use cdi_types::{ClassIndex, ClassLine, ClassPart, TypeTable};
use std::alloc::{AllocError, Global};
use std::marker::Model;

/// The tables of a deployment that plans are made from. Contracts see these.
#[derive(Drop)]
pub struct Planner<'a> {
    types: &'a TypeTable,
    qualifiers: &'a QualifierTypes,
    classes: ClassIndex<'a>,
    chains: &'a Chains,
}

impl<'a> Model for Planner<'a> {
    ghost use Rattle.cdi_planner.specs.Tables.{PlanTables};

    ghost Value = { PlanTables };

    ghost view = { λ t. record {
      types = t.types.now;
      qualifiers = t.qualifiers.now;
      classes = t.classes;
      chains = t.chains.now;
    } };
}

impl<'a> Planner<'a> {
    /// What makes the plans of a deployment, with the table of its types, the types of its qualifiers and the chains of its beans.
    pub fn build(
        alloc: Global,
        deployment: &'a Deployment,
        types: &'a TypeTable,
        qualifiers: &'a QualifierTypes,
        chains: &'a Chains,
    ) -> Result<Planner<'a>, AllocError>
        ensures { IfOk result (λ planner. planner ≡ record {
          types = types.now;
          qualifiers = qualifiers.now;
          classes = deployment.now.classes;
          chains = chains.now;
        }) }
    {
        Ok(Planner {
            types,
            qualifiers,
            classes: ClassIndex::build(alloc, deployment.classes.as_slice())?,
            chains,
        })
    }

    /// The classes of the deployment, by their names.
    pub fn classes(&self) -> &ClassIndex<'a>
        ensures { result.now ≡ self.now.classes }
    {
        &self.classes
    }

    /// The class of a name with its superclasses, the topmost first.
    pub fn line(&self, alloc: Global, class: Name) -> Result<ClassLine<'a>, AllocError>
        ensures { IfOk result (IsLineOf self.now.types self.now.classes class) }
    {
        self.classes.line(alloc, self.types, class)
    }

    /// The constructor of a class, if that declares one.
    fn constructor(&self, class: Name) -> Option<&'a Constructor>
        ensures { option_copied result ≡ spec.constructor_of self.now.classes class }
    {
        match self.classes.class(class) {
            Some(class) => class.constructor.as_ref(),
            None => None,
        }
    }

    /// The producer of beans of this kind that a class declares, if it declares one.
    fn producer(&self, class: Name, kind: BeanKind) -> Option<ClassPart<'a, Member>>
        ensures { result ≡ producer_of self.now.classes class kind }
    {
        match self.classes.class(class) {
            Some(class) => producer_in(&kind, class),
            None => None,
        }
    }

    /// The plan of what a producer of a class produces.
    fn produced(
        &self,
        alloc: Global,
        class: &Class,
        producer: &Member,
    ) -> Result<ProductPlan, AllocError>
        requires { IsTrue (is_producer producer.now) }
        ensures { IfOk result (IsPlanBy self.now (class.now, producer.now)) }
    {
        let qualifiers = self.qualifiers;
        let chains = self.chains;
        Ok(ProductPlan {
            declaring: class.name,
            source: source_of(alloc, chains, class, producer)?,
            disposers: disposers_of(alloc, self.types, qualifiers, chains, class, producer)?,
        })
    }

    /// Where an instance of a product comes from, and what disposes of it (Jakarta CDI 4.0, *Lifecycle of producer methods*, *Lifecycle of
    /// producer fields*), by its class and its kind. The first class of this name has to declare its producer, as it does for the beans of a
    /// deployment whose names have no problem ([`law_beans_are_declared`](crate::laws::law_beans_are_declared)).
    pub fn product(
        &self,
        alloc: Global,
        class: Name,
        kind: BeanKind,
    ) -> Result<ProductPlan, AllocError>
        requires { IsSome (producer_of self.now.classes class kind) }
        ensures { IfOk result (IsProductPlan self.now class kind) }
    {
        match self.producer(class, kind) {
            Some(producer) => self.produced(alloc, producer.class, producer.part),
            None => unreachable!(),
        }
    }

    /// An observer as the class that declares it says, if one does.
    fn declared(&self, observer: &ObserverMethod) -> Option<ClassPart<'a, Observer>>
        ensures { result ≡ observers.observer_of self.now.classes observer.now }
    {
        match self.classes.class(observer.class) {
            Some(class) => observer_in(class, observer.name),
            None => None,
        }
    }

    /// What runs where an observer is notified (Jakarta CDI 4.0, *Observer methods*): its body, what is injected into its parameters, and
    /// the chain round it, which is that of the bean that has it. The first class of the name of the one that declares it has to declare
    /// it, as it does for the observers of a deployment whose names have no problem
    /// ([`law_observers_are_declared`](crate::laws::law_observers_are_declared)).
    pub fn observer(
        &self,
        alloc: Global,
        observer: &ObserverMethod,
    ) -> Result<InjectedMethod, AllocError>
        requires { IsSome (observers.observer_of self.now.classes observer.now) }
        ensures { IfOk result (λ method. Some method ≡ option_map
            (observers.observer_method self.now.chains observer.now.bean)
            (observers.observer_of self.now.classes observer.now)) }
    {
        let bean = observer.bean;
        match self.declared(observer) {
            Some(found) => {
                let method = found.part;
                let params = method.params.as_slice();
                injected_method(
                    alloc,
                    self.chains,
                    bean,
                    found.class,
                    method.name,
                    method.body,
                    params,
                )
            }
            None => unreachable!(),
        }
    }

    /// What a class declares that runs in the lives of instances, with the chains of a bean of this class.
    pub fn own_parts(&self, alloc: Global, class: &Class) -> Result<OwnParts, AllocError>
        ensures { IfOk result (λ own. own ≡ inherited.own_parts self.now.chains class.now) }
    {
        own_parts(alloc, self.chains, class)
    }

    /// The business methods of a bean, which is told by its class, those of the topmost superclass first.
    pub fn methods(&self, alloc: Global, bean: Name) -> Result<Seq<BusinessMethod>, AllocError>
        ensures { IfOk result (inherited.AreMethodsOf self.now bean) }
    {
        let line = self.classes.line(alloc, self.types, bean)?;
        let has = line.members(alloc)?;
        business_methods(alloc, self.chains, bean, has.as_slice())
    }

    /// Whether each member is in the same chain for two beans, as [`Chains::have_same_chains`] tells.
    pub fn have_same_chains(&self, bean: Name, other: Name) -> bool
        ensures { IsTrue result → HaveSameChains self.now.chains bean other }
    {
        self.chains.have_same_chains(bean, other)
    }

    /// How many interceptors are enabled.
    pub fn interceptor_count(&self) -> usize
        ensures { result ≡ length self.now.chains.interceptors }
    {
        self.chains.interceptors().len()
    }

    /// The steps up to the construction of an instance of a managed bean: an instance of each interceptor in its chains, and the
    /// constructor.
    pub fn first_steps(&self, alloc: Global, bean: &Bean) -> Result<Seq<Step>, AllocError>
        ensures { IfOk result (λ steps. steps ≡ first_steps_of self.now.chains
            (spec.constructor_of self.now.classes bean.now.class) bean.now) }
    {
        first_steps(alloc, self.chains, self.constructor(bean.class), bean)
    }

    /// What runs at a point of the life of an instance of a bean with these callbacks.
    pub fn lifecycle(
        &self,
        alloc: Global,
        bean: Name,
        method: InterceptorMethod,
        callbacks: Seq<Code>,
    ) -> Result<Lifecycle, AllocError>
        ensures { IfOk result (λ life. life
            ≡ lifecycle_of self.now.chains bean method callbacks) }
    {
        lifecycle(alloc, self.chains, bean, method, callbacks)
    }
}
