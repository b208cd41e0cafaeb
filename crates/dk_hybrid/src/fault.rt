//! What can be wrong with runs.

use std::alloc::{AllocError, AllocFailed};
use thiserror::Error;

/// Why bytes give no values.
#[derive(Clone, Copy, Debug, Error)]
pub enum HybridFault {
    /// A value would have more than 32 bits.
    #[error("values of more than 32 bits")]
    Width,
    /// The bytes end before the values do.
    #[error("the bytes end before the values")]
    Short,
    /// Memory was refused.
    #[error("out of memory")]
    OutOfMemory,
}

impl From<AllocError> for HybridFault {
    ghost use Rattle.dk_hybrid.specs.declared.fault.HybridFault.TheVariants.{OutOfMemory};
    ghost use Rattle.std.specs.Prelude.{◌≡◌};

    ghost from_gives = { λ _ e. e ≡ OutOfMemory };

    fn from(_e: AllocError) -> HybridFault {
        HybridFault::OutOfMemory
    }
}

impl<T: Drop> From<AllocFailed<T>> for HybridFault {
    ghost use Rattle.dk_hybrid.specs.declared.fault.HybridFault.TheVariants.{OutOfMemory};
    ghost use Rattle.std.specs.Prelude.{◌≡◌};

    ghost from_gives = { λ _ e. e ≡ OutOfMemory };

    fn from(_e: AllocFailed<T>) -> HybridFault {
        HybridFault::OutOfMemory
    }
}
