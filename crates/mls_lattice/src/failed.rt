//! Faults of functions for which memory may run out.
ghost use Rattle.std.specs.Prelude.{◌≡◌};
ghost use Rattle.mls_lattice.specs.declared.failed.Failed.TheVariants.{Memory};

use std::alloc::{AllocError, AllocFailed};

/// Why a function fails that has faults of its own: each crate's public functions tell it as one fault.
#[derive(Clone, Copy)]
pub enum Failed<F> {
    /// A growth was refused.
    Memory,
    /// A fault of its own.
    Fault(F),
}

impl<F> From<AllocError> for Failed<F> {
    ghost from_gives = { λ _ e. e ≡ Memory };

    fn from(_e: AllocError) -> Failed<F> {
        Failed::Memory
    }
}

impl<F, T: Drop> From<AllocFailed<T>> for Failed<F> {
    ghost from_gives = { λ _ e. e ≡ Memory };

    fn from(_e: AllocFailed<T>) -> Failed<F> {
        Failed::Memory
    }
}
