//! Chains of interceptors.
ghost use Rattle.std.specs.Prelude.{◌≡◌, ◌∷◌, ◌↔◌, [], MatchOption, IfOk, IsTrue};

use std::alloc::{AllocError, Global};
use std::marker::Model;

/// The interceptors that are left of a chain, which contracts see as the list of their indices, in order (Jakarta
/// Interceptors 2.1, *Interceptor Ordering*). It is read from the front.
#[derive(Drop)]
pub struct Chain {
    /// The first one last, so that it is taken without moving the others.
    interceptors: Vec<u32>,
}

impl Model for Chain {
    ghost use Rattle.std.specs.Prelude.{List, reverse, ℕ};

    ghost Value = { List ℕ };

    ghost view = { λ c. reverse c.interceptors.items };
}

impl Chain {
    /// No interceptors.
    pub fn empty(alloc: Global) -> Chain
        ensures { result ≡ [] }
    {
        Chain {
            interceptors: Vec::new(alloc),
        }
    }

    /// A copy of these interceptors, in order. The one error is that memory ran out; no interceptors need none.
    pub fn from_slice(alloc: Global, interceptors: &[u32]) -> Result<Chain, AllocError>
        ensures { IfOk result (λ chain. chain ≡ interceptors.now) }
    {
        if interceptors.is_empty() {
            return Ok(Chain::empty(alloc));
        }
        let mut all = Vec::from_slice(alloc, interceptors)?;
        all.reverse();
        Ok(Chain { interceptors: all })
    }

    /// Whether no interceptor is left.
    pub fn is_empty(&self) -> bool
        ensures { IsTrue result ↔ (self.now ≡ []) }
    {
        self.interceptors.is_empty()
    }

    /// Takes the first interceptor, if one is left.
    pub fn take_first(&mut self) -> Option<u32>
        ensures { MatchOption result
            ((self.old ≡ []) × (self.new ≡ [])) (λ first. self.old ≡ first ∷ self.new) }
    {
        self.interceptors.pop()
    }
}

impl Clone for Chain {
    ghost is_clone = { λ chain copy. copy ≡ chain };

    fn clone(&self) -> Result<Chain, AllocError> {
        Ok(Chain {
            interceptors: self.interceptors.clone()?,
        })
    }
}
