//! What is in the way of reading or writing a table.

use std::alloc::AllocError;
use thiserror::Error;

/// A list of features (Delta Lake's PROTOCOL.md, "Table Features").
#[derive(Clone, Copy, Debug)]
pub enum FeatureList {
    /// The protocol's list for readers.
    Reader,
    /// The protocol's list for writers.
    Writer,
    /// The features that a version below 7 stands for, in their order: `appendOnly`, `invariants`,
    /// `checkConstraints`, `changeDataFeed`, `generatedColumns`, `columnMapping`, `identityColumns`.
    Implied,
}

/// What is in the way of reading or writing a table: the first that isn't supported (Delta Lake's PROTOCOL.md, "Table
/// Features"). `FeatureFault::name` has the feature's own name.
#[derive(Clone, Copy, Debug, Error)]
pub enum FeatureFault {
    /// Tables of this version of the protocol aren't read.
    #[error("tables of reader version {n} are not read")]
    ReaderVersion { n: u32 },
    /// Tables of this version of the protocol aren't written.
    #[error("tables of writer version {n} are not written")]
    WriterVersion { n: u32 },
    /// The feature at that place of the list, counted from 0.
    #[error("the feature at place {place} of its list is not supported")]
    Feature { list: FeatureList, place: usize },
    /// The feature `invariants` is in force, and the schema has invariants or can't be read.
    #[error("the schema has invariants or cannot be read")]
    InvariantsUsed,
    /// Memory was wanted and not had.
    #[error("out of memory")]
    OutOfMemory,
}

impl From<AllocError> for FeatureFault {
    ghost use Rattle.std.specs.Prelude.{◌≡◌};
    ghost use Rattle.dk_features.specs.declared.fault.FeatureFault.TheVariants.{OutOfMemory};

    ghost from_gives = { λ _ e. e ≡ OutOfMemory };

    fn from(_refused: AllocError) -> FeatureFault {
        FeatureFault::OutOfMemory
    }
}
