//! What a body may do.
ghost use Rattle.std.specs.Prelude.{◌≡◌};
ghost use Rattle.cdi_bodies.specs.Shape.{no_acts};

use cdi_base::{Name, Seq, Use, Via};
use std::alloc::{AllocError, Global};

/// A business method that a body may call: the reference to its instance, its name, and the number of values.
#[derive(Debug, PartialEq, Eq, Drop)]
pub struct MethodCall {
    pub via: Via,
    pub method: Name,
    pub count: usize,
}

/// A method of the body's own instance that it may call: its name, and the number of values.
#[derive(Debug, PartialEq, Eq, Drop)]
pub struct OwnCall {
    pub method: Name,
    pub count: usize,
}

/// An event that a body may fire: its class, and its qualifiers. Two lists of qualifiers are those of one event if they have
/// the same uses: their order, repeats, the built-in `Any`, and the order of a use's members and its null members don't count.
#[derive(Debug, PartialEq, Eq, Drop)]
pub struct FiredEvent {
    pub class: Name,
    pub qualifiers: Seq<Use>,
}

/// A programmatic lookup that a body may make: the required type, and the required qualifiers as they were written.
#[derive(Debug, PartialEq, Eq, Drop)]
pub struct Lookup {
    pub bean_type: Name,
    pub qualifiers: Seq<Use>,
}

impl Clone for Lookup {
    ghost is_clone = { λ l copy. copy ≡ l };

    fn clone(&self) -> Result<Lookup, AllocError> {
        Ok(Lookup {
            bean_type: self.bean_type,
            qualifiers: self.qualifiers.clone()?,
        })
    }
}

/// What a body may do. An act lies in the shape if what it names is listed here; to give a value is always allowed,
/// and so is to throw what the last act was answered with.
#[derive(Debug, PartialEq, Eq, Drop)]
pub struct Shape {
    /// The fields of the own instance that the body may set.
    pub sets: Seq<Name>,
    /// The business methods that it may call.
    pub calls: Seq<MethodCall>,
    /// The methods of the own instance that it may call.
    pub owns: Seq<OwnCall>,
    /// The references whose products it may read or write.
    pub cells: Seq<Via>,
    /// The events that it may fire.
    pub fires: Seq<FiredEvent>,
    /// The lookups that it may make. The lookup at index k gives its reference to the local k.
    pub lookups: Seq<Lookup>,
    /// The locals behind which it may destroy an instance (Jakarta CDI 4.0, *The Instance interface*). A deployment whose
    /// lookups don't give each of them has a problem.
    pub destroys: Seq<u32>,
    /// The exceptions that it may throw of its own accord.
    pub throws: Seq<Name>,
    /// Whether it may go on with an interceptor chain, and keep or read context data of the invocation
    /// (Jakarta Interceptors 2.1, *InvocationContext*).
    pub chain: bool,
}

impl Shape {
    /// The shape of a body that may only give a value, or throw what it was answered with.
    pub fn new(alloc: Global) -> Shape
        ensures { result ≡ no_acts }
    {
        Shape {
            sets: Seq::empty(alloc),
            calls: Seq::empty(alloc),
            owns: Seq::empty(alloc),
            cells: Seq::empty(alloc),
            fires: Seq::empty(alloc),
            lookups: Seq::empty(alloc),
            destroys: Seq::empty(alloc),
            throws: Seq::empty(alloc),
            chain: false,
        }
    }
}
