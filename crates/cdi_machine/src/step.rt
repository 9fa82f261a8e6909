//! The steps by which an instance of a managed bean is created.
use crate::code::Code;
use crate::point::Point;
use cdi_base::{Name, Seq};

/// What runs at a point of the life of an instance (Jakarta Interceptors 2.1, *Interceptor Methods for Lifecycle Event Callbacks*).
pub struct Lifecycle {
    /// The interceptors that stand round it in their order, by their places among the enabled ones.
    pub chain: Seq<u32>,
    /// The callbacks of the bean, those of the topmost superclass first; of a construction the body of the constructor, if it has one.
    pub callbacks: Seq<Code>,
}

/// In one call, so that the proof of each function that owns one has one step here, and not one for each of its parts.
impl Drop for Lifecycle {
    fn drop(self) {
        let Lifecycle {
            chain: _chain,
            callbacks: _callbacks,
        } = self;
    }
}

/// A step by which an instance of a managed bean is created (Jakarta CDI 4.0, *Lifecycle of managed beans*).
#[derive(Drop)]
pub enum Step {
    /// An instance of an interceptor, which is told by its place among the enabled ones.
    Intercept(u32),
    /// The constructor: what is injected into its parameters, its chain and its body.
    Construct {
        points: Seq<Point>,
        lifecycle: Lifecycle,
    },
    /// An injected field.
    Inject {
        field: Name,
        point: Point,
    },
    /// An initializer, and what is injected into its parameters.
    Initialize {
        code: Code,
        points: Seq<Point>,
    },
    /// The post-construct chain and callbacks.
    Complete(Lifecycle),
}
