//! What can be wrong with a Parquet file.

use std::alloc::{AllocError, AllocFailed};
use thiserror::Error;

/// Why bytes give no rows. The first cause that applies is answered, in this order.
#[derive(Debug, Drop, Error)]
pub enum PqFault {
    /// The magic bytes or the footer's length don't fit.
    #[error("no Parquet file")]
    NotParquet,
    /// This first wanted column has another type or another structure in the file. The column is
    /// named by the names on its path, joined by `.`.
    #[error("column {column} has another shape")]
    Shape { column: String },
    /// A wanted column has a codec other than UNCOMPRESSED; the number is the format's.
    #[error("column {column} is compressed by codec {codec}")]
    Compressed { column: String, codec: i32 },
    /// A wanted column has an encoding that isn't read; the number is the format's.
    #[error("column {column} has encoding {code}")]
    Encoding { column: String, code: i32 },
    /// Nothing else is wrong, and yet no rows are meant.
    #[error("broken Parquet file")]
    Broken,
    #[error("out of memory")]
    OutOfMemory,
}

impl From<AllocError> for PqFault {
    ghost use Rattle.dk_pqmodel.specs.declared.fault.PqFault.TheVariants.{OutOfMemory};
    ghost use Rattle.std.specs.Prelude.{◌≡◌};

    ghost from_gives = { λ _ e. e ≡ OutOfMemory };

    fn from(_e: AllocError) -> PqFault {
        PqFault::OutOfMemory
    }
}

impl<T: Drop> From<AllocFailed<T>> for PqFault {
    ghost use Rattle.dk_pqmodel.specs.declared.fault.PqFault.TheVariants.{OutOfMemory};
    ghost use Rattle.std.specs.Prelude.{◌≡◌};

    ghost from_gives = { λ _ e. e ≡ OutOfMemory };

    fn from(_e: AllocFailed<T>) -> PqFault {
        PqFault::OutOfMemory
    }
}
