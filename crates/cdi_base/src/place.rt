//! Where in a deployment something stands.
use crate::name::Name;

/// The methods that an interceptor can have (Jakarta Interceptors 2.1, *Business Method Interceptor Methods* and
/// *Interceptor Methods for Lifecycle Event Callbacks*).
#[derive(Clone, Copy, Debug, PartialEq, Eq)]
pub enum InterceptorMethod {
    /// Around-invoke, written `invoke`.
    AroundInvoke,
    /// Around-construct, written `construct`.
    AroundConstruct,
    /// Post-construct, written `post`.
    PostConstruct,
    /// Pre-destroy, written `pre`.
    PreDestroy,
}

/// A bean, a member or another place of a deployment.
#[derive(Clone, Copy, Debug, PartialEq, Eq)]
pub enum Place {
    /// A class, a managed bean by its class, an interceptor, or a name of a list: written `Name`.
    Class(Name),
    /// A member or a field with the class that declares it, also a product by its producer: written
    /// `Class#member`.
    Member {
        class: Name,
        member: Name,
    },
    /// The constructor of a class: written `Class#`.
    Constructor(Name),
    /// A method of an interceptor: written `Name#invoke`, `Name#construct`, `Name#post` or `Name#pre`.
    Interceptor {
        interceptor: Name,
        method: InterceptorMethod,
    },
}
