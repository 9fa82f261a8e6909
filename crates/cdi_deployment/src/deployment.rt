//! A deployment: what an application declares (Jakarta CDI 4.0, *Concepts*).
ghost use Rattle.std.specs.Prelude.{◌≡◌};
ghost use Rattle.cdi_deployment.specs.Member.{member_name, member_params};

use crate::steps::Steps;
use cdi_base::{Name, Names, Scope, Seq, Use, Value};

/// What an application declares, in the order in which it was written, and the table that numbers all names in it.
/// The table begins with the built-in names. A list that is not written is empty.
pub struct Deployment {
    pub names: Names,
    /// At most 1,024 interfaces, classes and interceptors together.
    pub interfaces: Seq<Interface>,
    /// At most 1,024 qualifier types (Jakarta CDI 4.0, *Defining new qualifier types*).
    pub qualifiers: Seq<AnnotationType>,
    /// At most 1,024 interceptor binding types (Jakarta Interceptors 2.1, *Interceptor Bindings*).
    pub bindings: Seq<AnnotationType>,
    /// At most 1,024 exceptions.
    pub exceptions: Seq<Exception>,
    pub classes: Seq<Class>,
    pub interceptors: Seq<Interceptor>,
    /// The classes whose beans are selected alternatives (Jakarta CDI 4.0, *Declaring selected alternatives*): at most
    /// 1,024 names.
    pub selected: Seq<Name>,
    /// The interceptors that are enabled, in their order (Jakarta Interceptors 2.1, *Enabling Interceptors*): at most
    /// 1,024 names.
    pub order: Seq<Name>,
    /// At most 1,024 scripts.
    pub scripts: Seq<Script>,
}

impl Deployment {
    /// Its table of names, without the rest.
    pub fn into_names(self) -> Names
        ensures { result ≡ self.names }
    {
        let Self {
            names,
            interfaces: _interfaces,
            qualifiers: _qualifiers,
            bindings: _bindings,
            exceptions: _exceptions,
            classes: _classes,
            interceptors: _interceptors,
            selected: _selected,
            order: _order,
            scripts: _scripts,
        } = self;
        names
    }
}

/// In one call, so that the proof of each function that owns a deployment has one step here, and not one for each list.
impl Drop for Deployment {
    fn drop(self) {
        let Self {
            names: _names,
            interfaces: _interfaces,
            qualifiers: _qualifiers,
            bindings: _bindings,
            exceptions: _exceptions,
            classes: _classes,
            interceptors: _interceptors,
            selected: _selected,
            order: _order,
            scripts: _scripts,
        } = self;
    }
}

/// An interface: a type with no members of its own.
#[derive(PartialEq, Eq, Drop)]
pub struct Interface {
    pub name: Name,
    /// The interfaces that it extends: at most 64 names.
    pub extends: Seq<Name>,
}

/// A qualifier type or an interceptor binding type.
#[derive(PartialEq, Eq, Drop)]
pub struct AnnotationType {
    pub name: Name,
    /// The names of its members: at most 8.
    pub members: Seq<Name>,
    /// The members that do not count where two uses are compared (Jakarta CDI 4.0, *Qualifier annotations with members*;
    /// Jakarta Interceptors 2.1, *Interceptor Binding Types with Members*): at most 64 names.
    pub nonbinding: Seq<Name>,
}

/// An exception that bodies may throw.
#[derive(Clone, Copy, PartialEq, Eq)]
pub struct Exception {
    pub name: Name,
    /// Whether it is a checked exception, which a lifecycle callback may not throw.
    pub checked: bool,
}

/// A class, which is a managed bean where it has a [`Bean`] (Jakarta CDI 4.0, *Managed beans*).
#[derive(PartialEq, Eq, Drop)]
pub struct Class {
    pub name: Name,
    /// The class that it extends directly; none where that is `Object`.
    pub extends: Option<Name>,
    /// The interfaces that it implements directly: at most 64 names.
    pub implements: Seq<Name>,
    pub is_abstract: bool,
    /// Whether no class may extend it, nor may a client proxy stand for it (Jakarta CDI 4.0, *Unproxyable bean types*).
    pub is_final: bool,
    /// The interceptor bindings of the class (Jakarta Interceptors 2.1, *Binding an Interceptor to a Target Class*): at
    /// most 16 uses.
    pub bindings: Seq<Use>,
    pub bean: Option<Bean>,
    /// The fields that hold values: at most 64, together with the injected ones.
    pub fields: Seq<Field>,
    /// The injected fields.
    pub inject: Seq<InjectedField>,
    /// The bean constructor, where one is declared (Jakarta CDI 4.0, *Bean constructors*).
    pub constructor: Option<Constructor>,
    /// At most 64 members.
    pub members: Seq<Member>,
}

/// What a class declares of itself as a managed bean.
#[derive(PartialEq, Eq, Drop)]
pub struct Bean {
    /// Jakarta CDI 4.0, *Declaring the bean scope*: the dependent pseudo-scope where none is written.
    pub scope: Scope,
    /// Jakarta CDI 4.0, *Declaring the qualifiers of a bean*: at most 16 uses.
    pub quals: Seq<Use>,
    /// Jakarta CDI 4.0, *Restricting the bean types of a bean*: at most 64 names. `None` does not restrict; an empty
    /// list leaves `Object` alone.
    pub typed: Option<Seq<Name>>,
    /// Jakarta CDI 4.0, *Declaring an alternative*.
    pub alternative: bool,
    /// The priority by which an alternative is selected for the application, if it has one.
    pub priority: Option<i64>,
    /// Whether it specializes the bean of the class that it extends (Jakarta CDI 4.0, *Specialization*).
    pub specializes: bool,
}

/// A field of a class or an interceptor, with the value that it begins with: null where none is written.
#[derive(PartialEq, Eq, Drop)]
pub struct Field {
    pub name: Name,
    pub value: Value,
}

/// An injected field of a class or an interceptor (Jakarta CDI 4.0, *Injected fields*).
#[derive(PartialEq, Eq, Drop)]
pub struct InjectedField {
    pub name: Name,
    /// The required type.
    pub ty: Name,
    /// The required qualifiers: at most 16 uses.
    pub quals: Seq<Use>,
}

/// A bean constructor (Jakarta CDI 4.0, *Bean constructors*).
#[derive(PartialEq, Eq, Drop)]
pub struct Constructor {
    /// At most 16 parameters.
    pub params: Seq<Point>,
    /// The name of the body that runs where an instance is made, if there is one.
    pub body: Option<Name>,
}

/// An injection point that is a parameter (Jakarta CDI 4.0, *Injection points*).
#[derive(PartialEq, Eq, Drop)]
pub struct Point {
    /// The required type.
    pub ty: Name,
    /// The required qualifiers: at most 16 uses.
    pub quals: Seq<Use>,
}

/// An interceptor (Jakarta Interceptors 2.1, *Definition of Interceptor Classes*), with the names of the bodies of those of
/// its interceptor methods that it has.
#[derive(PartialEq, Eq, Drop)]
pub struct Interceptor {
    pub name: Name,
    /// Its interceptor bindings: 1 to 16 uses.
    pub bindings: Seq<Use>,
    /// The priority that enables it for the application, if it has one.
    pub priority: Option<i64>,
    /// The fields that hold values: at most 64, together with the injected ones.
    pub fields: Seq<Field>,
    /// The injected fields.
    pub inject: Seq<InjectedField>,
    /// The around-invoke method.
    pub invoke: Option<Name>,
    /// The around-construct method.
    pub construct: Option<Name>,
    /// The post-construct method.
    pub post: Option<Name>,
    /// The pre-destroy method.
    pub pre: Option<Name>,
}

/// A member of a class.
#[derive(PartialEq, Eq, Drop)]
pub enum Member {
    /// A business method (Jakarta CDI 4.0, *Container invocations and interception*).
    Method(Method),
    /// An initializer method (Jakarta CDI 4.0, *Initializer methods*).
    Initializer(Initializer),
    /// A post-construct callback (Jakarta Interceptors 2.1, *Interceptor Methods for Lifecycle Event Callbacks*).
    PostConstruct(Callback),
    /// A pre-destroy callback.
    PreDestroy(Callback),
    /// A producer method (Jakarta CDI 4.0, *Producer methods*).
    Producer(ProducerMethod),
    /// A producer field (Jakarta CDI 4.0, *Producer fields*).
    ProducerField(ProducerField),
    /// A disposer method (Jakarta CDI 4.0, *Disposer methods*).
    Disposer(Disposer),
    /// An observer method (Jakarta CDI 4.0, *Observer methods*).
    Observer(Observer),
}

impl Member {
    /// The name of the member.
    pub fn name(&self) -> Name
        ensures { result ≡ member_name self.now }
    {
        match self {
            Member::Method(method) => method.name,
            Member::Initializer(initializer) => initializer.name,
            Member::PostConstruct(callback) => callback.name,
            Member::PreDestroy(callback) => callback.name,
            Member::Producer(producer) => producer.name,
            Member::ProducerField(producer) => producer.name,
            Member::Disposer(disposer) => disposer.name,
            Member::Observer(observer) => observer.name,
        }
    }

    /// Its injected parameters (Jakarta CDI 4.0, *Injection points*): the disposed parameter and the event parameter are none, and
    /// those of a business method are values.
    pub fn params(&self) -> &[Point]
        ensures { result.now ≡ member_params self.now }
    {
        match self {
            Member::Initializer(initializer) => initializer.params.as_slice(),
            Member::Producer(producer) => producer.params.as_slice(),
            Member::Disposer(disposer) => disposer.params.as_slice(),
            Member::Observer(observer) => observer.params.as_slice(),
            _ => &[],
        }
    }
}

/// A business method.
#[derive(PartialEq, Eq, Drop)]
pub struct Method {
    pub name: Name,
    /// The name of the body that runs where the method is called.
    pub body: Name,
    /// How many values a call passes: 0 to 8, and 0 where it is not written.
    pub args: u32,
    /// Its interceptor bindings: at most 16 uses.
    pub bindings: Seq<Use>,
}

/// An initializer method, which the container calls once for each instance, with its parameters injected.
#[derive(PartialEq, Eq, Drop)]
pub struct Initializer {
    pub name: Name,
    /// The name of its body.
    pub body: Name,
    /// At most 16 parameters.
    pub params: Seq<Point>,
}

/// A post-construct or pre-destroy callback.
#[derive(Clone, Copy, PartialEq, Eq)]
pub struct Callback {
    pub name: Name,
    /// The name of its body.
    pub body: Name,
}

/// A producer method, whose value is an instance of a bean of its own.
#[derive(PartialEq, Eq, Drop)]
pub struct ProducerMethod {
    pub name: Name,
    /// The name of its body.
    pub body: Name,
    /// The type of what it produces.
    pub ty: Name,
    /// The qualifiers of the bean: at most 16 uses.
    pub quals: Seq<Use>,
    /// What restricts the types of the bean, as [`Bean::typed`]: at most 64 names.
    pub typed: Option<Seq<Name>>,
    /// The scope of the bean: the dependent pseudo-scope where none is written.
    pub scope: Scope,
    /// At most 16 parameters.
    pub params: Seq<Point>,
    /// Its interceptor bindings: at most 16 uses.
    pub bindings: Seq<Use>,
}

/// A producer field, whose value is an instance of a bean of its own.
#[derive(PartialEq, Eq, Drop)]
pub struct ProducerField {
    pub name: Name,
    /// The field of the class that holds the value.
    pub field: Name,
    /// The type of what it produces.
    pub ty: Name,
    /// The qualifiers of the bean: at most 16 uses.
    pub quals: Seq<Use>,
    /// What restricts the types of the bean, as [`Bean::typed`]: at most 64 names.
    pub typed: Option<Seq<Name>>,
    /// The scope of the bean: the dependent pseudo-scope where none is written.
    pub scope: Scope,
}

/// A disposer method, which runs where an instance that a producer of its class gave is destroyed.
#[derive(PartialEq, Eq, Drop)]
pub struct Disposer {
    pub name: Name,
    /// The name of its body.
    pub body: Name,
    /// The type of the disposed parameter (Jakarta CDI 4.0, *Disposed parameter of a disposer method*).
    pub ty: Name,
    /// The qualifiers of the disposed parameter: at most 16 uses.
    pub quals: Seq<Use>,
    /// The other parameters: at most 16.
    pub params: Seq<Point>,
    /// Its interceptor bindings: at most 16 uses.
    pub bindings: Seq<Use>,
}

/// An observer method, which runs where an event is fired that its event parameter resolves to.
#[derive(PartialEq, Eq, Drop)]
pub struct Observer {
    pub name: Name,
    /// The name of its body.
    pub body: Name,
    /// The observed event type (Jakarta CDI 4.0, *Event parameter of an observer method*).
    pub ty: Name,
    /// The observed event qualifiers: at most 16 uses.
    pub quals: Seq<Use>,
    /// The other parameters: at most 16.
    pub params: Seq<Point>,
    /// Its place among the observers of an event, if it is written (Jakarta CDI 4.0, *Observer ordering*).
    pub priority: Option<i64>,
    /// Whether it is notified only where an instance exists already (Jakarta CDI 4.0, *Conditional observer methods*).
    pub if_exists: bool,
    /// Its interceptor bindings: at most 16 uses.
    pub bindings: Seq<Use>,
}

/// A script: the body of the members that name it.
#[derive(Drop)]
pub struct Script {
    pub name: Name,
    pub steps: Steps,
}
