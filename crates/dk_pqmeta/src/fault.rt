//! Why a part of a footer isn't read.

use dk_pqmodel::PqFault;
use dk_thrift::ThriftFault;
use std::alloc::{AllocError, AllocFailed};

/// Why a part of a footer isn't read: no such part is spelled there, or memory is wanting.
#[derive(Drop)]
pub(crate) enum MetaFault {
    Broken,
    OutOfMemory,
}

impl From<ThriftFault> for MetaFault {
    ghost use Rattle.dk_pqmeta.specs.declared.fault.MetaFault.TheVariants.{Broken};
    ghost use Rattle.std.specs.Prelude.{◌≡◌};

    ghost from_gives = { λ _ e. e ≡ Broken };

    fn from(_e: ThriftFault) -> MetaFault {
        MetaFault::Broken
    }
}

impl From<AllocError> for MetaFault {
    ghost use Rattle.dk_pqmeta.specs.declared.fault.MetaFault.TheVariants.{OutOfMemory};
    ghost use Rattle.std.specs.Prelude.{◌≡◌};

    ghost from_gives = { λ _ e. e ≡ OutOfMemory };

    fn from(_e: AllocError) -> MetaFault {
        MetaFault::OutOfMemory
    }
}

impl<T: Drop> From<AllocFailed<T>> for MetaFault {
    ghost use Rattle.dk_pqmeta.specs.declared.fault.MetaFault.TheVariants.{OutOfMemory};
    ghost use Rattle.std.specs.Prelude.{◌≡◌};

    ghost from_gives = { λ _ e. e ≡ OutOfMemory };

    fn from(_e: AllocFailed<T>) -> MetaFault {
        MetaFault::OutOfMemory
    }
}
