//! Why a call of the store did nothing.
ghost use Rattle.std.specs.Prelude.{◌≡◌};
ghost use Rattle.cdi_store.specs.declared.errors.ChangeError.TheVariants as change;
ghost use Rattle.cdi_store.specs.declared.errors.MakeError.TheVariants as make;

use std::alloc::{AllocError, AllocFailed};
use thiserror::Error;

/// The key isn't that of a live instance: none has its number, or the one that has it lies in another slot.
#[derive(Clone, Copy, Debug, PartialEq, Eq, Error)]
#[error("the key isn't that of a live instance")]
pub struct Stale;

/// Why an instance was not made. The store is as before.
#[derive(Clone, Copy, Debug, PartialEq, Eq, Error)]
pub enum MakeError {
    /// The store has given out every number.
    #[error("every number has been given out")]
    NumbersOut,
    /// No memory was left for the instance.
    #[error("out of memory")]
    Memory,
}

impl From<AllocError> for MakeError {
    ghost from_gives = { λ _ e. e ≡ make.Memory };

    fn from(_error: AllocError) -> MakeError {
        MakeError::Memory
    }
}

impl<T: Drop> From<AllocFailed<T>> for MakeError {
    ghost from_gives = { λ _ e. e ≡ make.Memory };

    fn from(_error: AllocFailed<T>) -> MakeError {
        MakeError::Memory
    }
}

/// Why an instance was not changed. The store is as before.
#[derive(Clone, Copy, Debug, PartialEq, Eq, Error)]
pub enum ChangeError {
    /// A key isn't that of a live instance.
    #[error("the key isn't that of a live instance")]
    Stale,
    /// No memory was left for the change.
    #[error("out of memory")]
    Memory,
}

impl From<Stale> for ChangeError {
    ghost from_gives = { λ _ e. e ≡ change.Stale };

    fn from(_error: Stale) -> ChangeError {
        ChangeError::Stale
    }
}

impl From<AllocError> for ChangeError {
    ghost from_gives = { λ _ e. e ≡ change.Memory };

    fn from(_error: AllocError) -> ChangeError {
        ChangeError::Memory
    }
}
