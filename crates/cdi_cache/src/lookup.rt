//! A resolver that remembers the last answers.
ghost use Rattle.std.specs.Prelude.{◌≡◌, ℕ, List, IfOk, IfSome};
ghost use Rattle.cdi_resolve.specs.Resolution.{resolution};
ghost use Rattle.cdi_cache.specs.Answers as spec;

use crate::answer::{Answer, hash_of};
use cdi_base::Name;
use cdi_quals::QualSet;
use cdi_resolve::{Resolution, Resolving};
use lru::LruCache;
use std::alloc::{AllocError, Global};
use std::marker::Model;
use std::num::NonZeroUsize;

/// A resolver that remembers the answers to as many lookups as its capacity, the last ones that were asked. The answers are those of the
/// resolver, which contracts see. They are found by hashes of the lookups, and each stands with what was asked, since two lookups
/// may have one hash.
#[derive(Drop)]
pub struct Lookup<R: Resolving> {
    resolver: R,
    answers: LruCache<u64, Answer>,
}

impl<R: Resolving> Model for Lookup<R> {
    ghost use Rattle.cdi_cache.specs.Answers.{AreTold};

    ghost Value = { R };

    ghost view = { λ l. l.resolver };

    ghost invariant = { λ l. AreTold (R.enabled l.resolver) l.answers.entries };
}

impl<R: Resolving + Drop> Lookup<R> {
    /// Nothing is remembered.
    pub fn new(alloc: Global, resolver: R, capacity: NonZeroUsize) -> Result<Lookup<R>, AllocError>
        ensures { IfOk result (λ lookup. lookup ≡ resolver) }
    {
        let answers = LruCache::new(alloc, capacity)?;
        Ok(Lookup { resolver, answers })
    }

    /// What is remembered of a lookup.
    fn known(&self, hash: u64, ty: Name, qualifiers: &QualSet) -> Option<Resolution>
        ensures { IfSome result (λ told.
            told ≡ resolution ty qualifiers.now (R.enabled self.now)) }
    {
        let answer = self.answers.peek(&hash)?;
        if answer.is_of(ty, qualifiers) {
            return Some(answer.told);
        }
        None
    }

    /// Remembers an answer of the resolver, if there is memory.
    fn remember(&mut self, hash: u64, ty: Name, qualifiers: &QualSet, told: Resolution)
        requires { told ≡ resolution ty qualifiers.now (R.enabled self.old) }
        ensures { self.new ≡ self.old }
    {
        if let Ok(answer) = Answer::new(ty, qualifiers, told) {
            let _ = self.answers.put(hash, answer);
        }
    }

    /// What a type and qualifiers resolve to (Jakarta CDI 4.0, *Typesafe resolution*). If there is no memory, it isn't remembered.
    pub fn find(&mut self, ty: Name, qualifiers: &QualSet) -> Resolution
        ensures told { result ≡ resolution ty qualifiers.now (R.enabled self.old) }
        ensures kept { R.enabled self.new ≡ R.enabled self.old }
    {
        let hash = hash_of(ty, qualifiers);
        if let Some(told) = self.known(hash, ty, qualifiers) {
            self.answers.promote(&hash);
            return told;
        }
        let told = self.resolver.ask(ty, qualifiers);
        self.remember(hash, ty, qualifiers, told);
        told
    }
}

impl<R: Resolving + Drop> Resolving for Lookup<R> {
    ghost enabled = { R.enabled };

    fn ask(&mut self, ty: Name, qualifiers: &QualSet) -> Resolution {
        self.find(ty, qualifiers)
    }
}
