//! Beans.
ghost use Rattle.std.specs.Prelude.{◌≡◌};
ghost use Rattle.cdi_beans.specs.Kinds as kinds;

use crate::qualifiers::BeanQualifiers;
use cdi_base::{Name, Scope, Seq};
use cdi_quals::QualSet;

/// What makes the instances of a bean (Jakarta CDI 4.0, *Managed beans*, *Producer methods*, *Producer fields*).
#[derive(Clone, Copy, Debug, PartialEq, Eq)]
pub enum BeanKind {
    /// The class itself.
    Managed,
    /// The producer method of this name.
    ProducerMethod(Name),
    /// The producer field of this name.
    ProducerField(Name),
}

/// A member that a bean has (Jakarta CDI 4.0, *Inheritance of member-level metadata*).
#[derive(Clone, Copy, Debug, PartialEq, Eq)]
pub struct BeanMember {
    /// The class that declares it: that of the bean, or a superclass.
    pub class: Name,
    pub name: Name,
}

/// A bean (Jakarta CDI 4.0, *Beans*), enabled or not.
#[derive(Debug, Drop)]
pub struct Bean {
    pub kind: BeanKind,
    /// The class that declares it: that of a managed bean, or the one that has the producer.
    pub class: Name,
    /// Its bean types, each once, in the order of their declaration (Jakarta CDI 4.0, *Bean types*).
    pub types: Seq<Name>,
    /// Its qualifiers, also those that it needn't declare (Jakarta CDI 4.0, *Qualifiers*, *Specialization*).
    pub qualifiers: BeanQualifiers,
    pub scope: Scope,
    /// Whether it, or the bean that declares it, is an alternative (Jakarta CDI 4.0, *Alternatives*).
    pub alternative: bool,
    /// The priority of its class, if it has one.
    pub priority: Option<i64>,
    /// The class of the bean that it directly specializes, if it does (Jakarta CDI 4.0, *Specialization*); a product specializes none.
    pub specializes: Option<Name>,
    /// The members of a managed bean, those of the topmost superclass first; a product has none.
    pub members: Seq<BeanMember>,
}

impl Bean {
    /// Whether it is a managed bean, and no product (Jakarta CDI 4.0, *Managed beans*).
    pub fn is_managed(&self) -> bool
        ensures { result ≡ kinds.is_managed self.now.kind }
    {
        match self.kind {
            BeanKind::Managed => true,
            BeanKind::ProducerMethod(_) => false,
            BeanKind::ProducerField(_) => false,
        }
    }
}

/// An enabled interceptor (Jakarta Interceptors 2.1, *Enabling Interceptors*).
#[derive(Debug, Drop)]
pub struct EnabledInterceptor {
    /// Its index among the interceptors of the deployment.
    pub index: usize,
    pub name: Name,
    pub bindings: QualSet,
    /// The body of the around-invoke method.
    pub invoke: Option<Name>,
    /// The body of the around-construct method.
    pub construct: Option<Name>,
    /// The body of the post-construct method.
    pub post: Option<Name>,
    /// The body of the pre-destroy method.
    pub pre: Option<Name>,
}

/// An observer method of a bean (Jakarta CDI 4.0, *Observer methods*).
#[derive(Debug, Drop)]
pub struct ObserverMethod {
    /// The class of the bean that has it.
    pub bean: Name,
    /// The class that declares it.
    pub class: Name,
    pub name: Name,
    /// The observed event type.
    pub ty: Name,
    /// The observed event qualifiers.
    pub qualifiers: QualSet,
    /// Its place among the observers of an event: 2,500 where none is declared.
    pub priority: i64,
    /// Whether it is conditional.
    pub if_exists: bool,
}

/// A disposer method of a bean, with the producers that it serves (Jakarta CDI 4.0, *Disposer methods*).
#[derive(Debug, Drop)]
pub struct DisposerMethod {
    pub class: Name,
    pub name: Name,
    /// The names of the producers, which are those of the same class, in its order.
    pub serves: Seq<Name>,
}

/// The beans of a deployment, and what belongs to them, in the order of the deployment; the interceptors in their own order
/// (Jakarta Interceptors 2.1, *Interceptor Ordering*).
#[derive(Debug)]
pub struct BeanList {
    pub beans: Seq<Bean>,
    /// The classes whose beans are selected alternatives without a priority (Jakarta CDI 4.0, *Declaring selected alternatives*).
    pub selected: Seq<Name>,
    pub interceptors: Seq<EnabledInterceptor>,
    pub observers: Seq<ObserverMethod>,
    pub disposers: Seq<DisposerMethod>,
}

/// In one call, so that the proof of each function that owns a bean list has one step here, and not one for each of its parts.
impl Drop for BeanList {
    fn drop(self) {
        let Self {
            beans: _beans,
            selected: _selected,
            interceptors: _interceptors,
            observers: _observers,
            disposers: _disposers,
        } = self;
    }
}
