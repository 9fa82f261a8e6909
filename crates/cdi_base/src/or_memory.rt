//! What a call answers that gives nothing.
ghost use Rattle.std.specs.Prelude.{◌≡◌};
ghost use Rattle.cdi_base.specs.declared.or_memory.OrMemory.TheVariants.{Memory};

use std::alloc::{AllocError, AllocFailed};
use std::fmt::Display;
use thiserror::Error;

/// Why a call gave nothing: no memory was left, or a fault.
#[derive(Debug, PartialEq, Eq, Drop, Error)]
#[error_bound(F: Display)]
pub enum OrMemory<F> {
    /// A growth was refused.
    #[error("out of memory")]
    Memory,
    /// This fault was found.
    #[error("{0}")]
    Fault(F),
}

impl<F> From<AllocError> for OrMemory<F> {
    ghost from_gives = { λ _ e. e ≡ Memory };

    fn from(_error: AllocError) -> OrMemory<F> {
        OrMemory::Memory
    }
}

impl<F, T: Drop> From<AllocFailed<T>> for OrMemory<F> {
    ghost from_gives = { λ _ e. e ≡ Memory };

    fn from(_error: AllocFailed<T>) -> OrMemory<F> {
        OrMemory::Memory
    }
}
