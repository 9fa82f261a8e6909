//! Plans: by which steps an instance of a bean is created, and what else runs in its life. They borrow nothing.
use cdi_base::{Name, Place, Seq};
use cdi_deployment::{Field, Point};

/// A body, and the member that it is of.
#[derive(Clone, Copy, Debug, PartialEq, Eq)]
pub struct Code {
    /// The member with the class that declares it.
    pub place: Place,
    /// The name of the body.
    pub body: Name,
}

/// What runs at a point of the life of an instance (Jakarta Interceptors 2.1, *Interceptor Methods for Lifecycle Event Callbacks*).
#[derive(Drop)]
pub struct Lifecycle {
    /// The interceptors that stand round it in their order, by their places among the enabled ones.
    pub chain: Seq<usize>,
    /// The callbacks of the bean, those of the topmost superclass first; of a construction the body of the constructor, if it has one.
    pub callbacks: Seq<Code>,
}

/// A business method of a bean (Jakarta CDI 4.0, *Container invocations and interception*).
#[derive(Drop)]
pub struct BusinessMethod {
    pub name: Name,
    pub code: Code,
    /// How many values a call passes: 0 to 8.
    pub count: u32,
    /// The interceptors that stand round a call in their order, by their places among the enabled ones.
    pub chain: Seq<usize>,
}

/// A producer method, a disposer or an observer of a bean, whose parameters are injected.
#[derive(Drop)]
pub struct InjectedMethod {
    pub code: Code,
    /// What is injected into its parameters, but for the disposed one and the event.
    pub points: Seq<Point>,
    /// The interceptors that stand round a call in their order, by their places among the enabled ones.
    pub chain: Seq<usize>,
}

/// A step by which an instance of a managed bean is created (Jakarta CDI 4.0, *Lifecycle of managed beans*).
#[derive(Drop)]
pub enum Step {
    /// An instance of an interceptor, which is told by its place among the enabled ones.
    Intercept(usize),
    /// The constructor: what is injected into its parameters, its chain and its body.
    Construct {
        points: Seq<Point>,
        lifecycle: Lifecycle,
    },
    /// An injected field.
    Inject {
        field: Name,
        point: Point,
    },
    /// An initializer, and what is injected into its parameters.
    Initialize {
        code: Code,
        points: Seq<Point>,
    },
    /// The post-construct chain and callbacks.
    Complete(Lifecycle),
}

/// By which steps an instance of a managed bean is created, and what it has then.
#[derive(Drop)]
pub struct ManagedPlan {
    /// The fields of a new instance with the values that they begin with, those of the topmost superclass first.
    pub fields: Seq<Field>,
    pub steps: Seq<Step>,
    pub methods: Seq<BusinessMethod>,
    /// The pre-destroy chain and callbacks.
    pub pre_destroy: Lifecycle,
}

/// What gives an instance of a product.
#[derive(Drop)]
pub enum Source {
    /// A producer method (Jakarta CDI 4.0, *Producer methods*).
    ProducerMethod(InjectedMethod),
    /// The field of this name, which a producer field is (Jakarta CDI 4.0, *Producer fields*).
    ProducerField(Name),
}

/// Where an instance of a product comes from, and what disposes of it (Jakarta CDI 4.0, *Lifecycle of producer methods*).
#[derive(Drop)]
pub struct ProductPlan {
    /// The class that declares the producer.
    pub declaring: Name,
    pub source: Source,
    /// The disposers of the class that serve the producer, in the order of their declaration.
    pub disposers: Seq<InjectedMethod>,
}

/// By which steps an instance of a bean is created.
#[derive(Drop)]
pub enum Plan {
    Managed(ManagedPlan),
    Product(ProductPlan),
}
