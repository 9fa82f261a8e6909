//! Members of beans that a container calls, products and observers.
ghost use Rattle.std.specs.Prelude.{◌≡◌};

use crate::code::Code;
use crate::point::Point;
use cdi_base::{Name, Seq};
use std::alloc::AllocError;

/// A business method of a bean (Jakarta CDI 4.0, *Container invocations and interception*). It has no injected parameters.
pub struct Method {
    pub code: Code,
    /// How many values a call passes: 0 to 8.
    pub count: u32,
    /// The interceptors that stand round a call in their order, by their places among the enabled ones.
    pub chain: Seq<u32>,
}

/// In one call, so that the proof of each function that owns one has one step here, and not one for each of its parts.
impl Drop for Method {
    fn drop(self) {
        let Method {
            code: _code,
            count: _count,
            chain: _chain,
        } = self;
    }
}

/// A producer method, a disposer or an observer of a bean, whose parameters are injected.
pub struct Member {
    pub code: Code,
    /// What is injected into its parameters, but for the disposed one and the event.
    pub points: Seq<Point>,
    /// The interceptors that stand round a call in their order, by their places among the enabled ones.
    pub chain: Seq<u32>,
}

/// In one call, so that the proof of each function that owns one has one step here, and not one for each of its parts.
impl Drop for Member {
    fn drop(self) {
        let Member {
            code: _code,
            points: _points,
            chain: _chain,
        } = self;
    }
}

impl Clone for Member {
    ghost is_clone = { λ member copy. copy ≡ member };

    #[tactic(auto, using(cdi_base::proofs::Clones::same_items))]
    fn clone(&self) -> Result<Member, AllocError> {
        Ok(Member {
            code: self.code,
            points: self.points.clone()?,
            chain: self.chain.clone()?,
        })
    }
}

/// What gives an instance of a product.
#[derive(Drop)]
pub enum Source {
    /// A producer method (Jakarta CDI 4.0, *Producer methods*).
    Method(Member),
    /// The field of this name, which a producer field is (Jakarta CDI 4.0, *Producer fields*).
    Field(Name),
}

/// Where an instance of a product comes from, and what disposes of it (Jakarta CDI 4.0, *Lifecycle of producer methods*).
pub struct Product {
    /// The managed bean that declares the producer, by its index.
    pub declaring: u32,
    pub source: Source,
    /// The disposers that serve the producer, in the order of their declaration.
    pub disposers: Seq<Member>,
}

/// In one call, so that the proof of each function that owns one has one step here, and not one for each of its parts.
impl Drop for Product {
    fn drop(self) {
        let Product {
            declaring: _declaring,
            source: _source,
            disposers: _disposers,
        } = self;
    }
}

/// An observer of an enabled bean (Jakarta CDI 4.0, *Observer methods*).
pub struct Observer {
    /// The managed bean whose instance is notified, by its index.
    pub bean: u32,
    pub member: Member,
    /// Whether it is notified only if its bean has an instance (Jakarta CDI 4.0, *Conditional observer methods*).
    pub conditional: bool,
}

/// In one call, so that the proof of each function that owns one has one step here, and not one for each of its parts.
impl Drop for Observer {
    fn drop(self) {
        let Observer {
            bean: _bean,
            member: _member,
            conditional: _conditional,
        } = self;
    }
}

impl Clone for Observer {
    ghost is_clone = { λ observer copy. copy ≡ observer };

    fn clone(&self) -> Result<Observer, AllocError> {
        Ok(Observer {
            bean: self.bean,
            member: self.member.clone()?,
            conditional: self.conditional,
        })
    }
}
