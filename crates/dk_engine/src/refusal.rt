//! Why a call gives no answer.
ghost use Rattle.std.specs.Prelude.{◌≡◌};
ghost use Rattle.dk_engine.specs.declared.refusal.Refusal.TheVariants.{OutOfMemory};

use crate::limits::Which;
use dk_model::{Kind, Text};
use dk_store::StoreError;
use std::alloc::{AllocError, AllocFailed};
use thiserror::Error;

/// Why a call gives no answer. Each cause but want of memory is a condition that the call's contract names.
#[derive(Debug, Drop, Error)]
pub enum Refusal {
    /// A call of the store failed: its count of faults rose.
    #[error("the store failed")]
    Store,
    /// The object of this path, which the answer needs, is absent.
    #[error("{} is absent", .path.as_str())]
    Missing { path: Text },
    /// The table asks for this, which isn't there: a feature by its name, a version as `minReaderVersion n` or
    /// `minWriterVersion n`, or a setting's text that is no interval, by its key.
    #[error("{} is not supported", .name.as_str())]
    Unsupported { name: Text },
    /// The object of this path means nothing: `place` is its first bad line, from 1, or 0 for the object as a whole.
    #[error("{} means nothing at {place}", .path.as_str())]
    Damaged { path: Text, place: u64 },
    /// A counted number is over its limit: `value` is that number.
    #[error("{value} is over the limit {which:?}")]
    Limit { which: Which, value: u64 },
    /// Memory was refused.
    #[error("out of memory")]
    OutOfMemory,
    /// The commit breaks the rules of commits: `rule` is the number of the first that is broken.
    #[error("the commit breaks rule {rule}")]
    Invalid { rule: u8 },
    /// The asked version is above the latest one.
    #[error("the latest version is {latest}")]
    NoVersion { latest: u64 },
    /// What was to be made at this path was there already: the store's count of clashes rose.
    #[error("{} was there already", .path.as_str())]
    Taken { path: Text },
    /// The commit of this path, which came after the transaction's snapshot, is in the store no more.
    #[error("{} is there no more", .path.as_str())]
    WinnersGone { path: Text },
    /// The commit of this version came in between and is in the way.
    #[error("version {version} is in the way: {kind:?}")]
    Conflict { version: u64, kind: Kind },
    /// The moment is before the time of the first version, which `first` is, in milliseconds since
    /// 1970-01-01T00:00:00Z.
    #[error("the first version is of {first}")]
    TooEarly { first: i64 },
    /// All that was asked for stands already, up to this version.
    #[error("all stands already, up to version {version}")]
    NothingToDo { version: u64 },
    /// A part or sidecar that a job has made is in the store no more.
    #[error("{} is there no more", .path.as_str())]
    Gone { path: Text },
    /// There is no transaction or job to go on with.
    #[error("nothing was begun")]
    NotBegun,
    /// There are this many spare handlers, and the place asked for isn't among them.
    #[error("there are {count} spares")]
    NoSpare { count: u64 },
}

impl From<AllocError> for Refusal {
    ghost from_gives = { λ _ r. r ≡ OutOfMemory };

    fn from(_: AllocError) -> Self {
        Refusal::OutOfMemory
    }
}

impl<T: Drop> From<AllocFailed<T>> for Refusal {
    ghost from_gives = { λ _ r. r ≡ OutOfMemory };

    fn from(_: AllocFailed<T>) -> Self {
        Refusal::OutOfMemory
    }
}

impl From<StoreError> for Refusal {
    ghost use Rattle.dk_engine.specs.Answers.{refusal_of};

    ghost from_gives = { λ e r. r ≡ refusal_of e };

    fn from(error: StoreError) -> Self {
        match error {
            StoreError::Failed => Refusal::Store,
            StoreError::OutOfMemory => Refusal::OutOfMemory,
        }
    }
}
