//! Why rows gave no actions.

use std::alloc::{AllocError, AllocFailed};
use thiserror::Error;

/// Why rows gave no actions.
#[derive(Clone, Copy, Debug, Error)]
pub enum RowFault {
    /// The row of that number, counted from 0, is the first that has a key of an action and means none.
    #[error("row {row} is no action")]
    NotAnAction { row: u64 },
    /// Memory was wanted and not had.
    #[error("out of memory")]
    OutOfMemory,
}

impl From<AllocError> for RowFault {
    ghost use Rattle.std.specs.Prelude.{◌≡◌};
    ghost use Rattle.dk_rowmap.specs.declared.fault.RowFault.TheVariants.{OutOfMemory};

    ghost from_gives = { λ _ e. e ≡ OutOfMemory };

    fn from(_refused: AllocError) -> RowFault {
        RowFault::OutOfMemory
    }
}

impl<T: Drop> From<AllocFailed<T>> for RowFault {
    ghost use Rattle.std.specs.Prelude.{◌≡◌};
    ghost use Rattle.dk_rowmap.specs.declared.fault.RowFault.TheVariants.{OutOfMemory};

    ghost from_gives = { λ _ e. e ≡ OutOfMemory };

    fn from(_refused: AllocFailed<T>) -> RowFault {
        RowFault::OutOfMemory
    }
}
