//! Why a wanted schema isn't laid over a file's own.

use std::alloc::{AllocError, AllocFailed};

#[derive(Drop)]
pub(crate) enum LayFault {
    /// The first wanted leaf that has another type or structure in the file, by the names on its path.
    Shape(Vec<String>),
    OutOfMemory,
}

impl From<AllocError> for LayFault {
    ghost use Rattle.dk_pqread.specs.declared.fault.LayFault.TheVariants.{OutOfMemory};
    ghost use Rattle.std.specs.Prelude.{◌≡◌};

    ghost from_gives = { λ _ e. e ≡ OutOfMemory };

    fn from(_e: AllocError) -> LayFault {
        LayFault::OutOfMemory
    }
}

impl<T: Drop> From<AllocFailed<T>> for LayFault {
    ghost use Rattle.dk_pqread.specs.declared.fault.LayFault.TheVariants.{OutOfMemory};
    ghost use Rattle.std.specs.Prelude.{◌≡◌};

    ghost from_gives = { λ _ e. e ≡ OutOfMemory };

    fn from(_e: AllocFailed<T>) -> LayFault {
        LayFault::OutOfMemory
    }
}
