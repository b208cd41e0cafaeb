//! What a store takes and what it answers.
ghost use Rattle.std.specs.Prelude.{◌≡◌};
ghost use Rattle.dk_store.specs.declared.event.StoreError.TheVariants.{OutOfMemory};

use std::alloc::{AllocError, AllocFailed};
use thiserror::Error;

/// One write that a store has taken. A path is relative to the table's folder, and a stamp is in milliseconds since
/// 1970-01-01T00:00:00Z.
#[derive(Drop)]
pub enum Event {
    /// An object was made where none was.
    Made {
        path: String,
        bytes: Vec<u8>,
        stamp: i64,
    },
    /// An object was made, in place of another if one was there.
    Over {
        path: String,
        bytes: Vec<u8>,
        stamp: i64,
    },
    /// An object was taken away.
    Deleted {
        path: String,
    },
    /// A version's commit was settled as the staged object with this name.
    Ratified {
        version: u64,
        name: String,
    },
    /// The ratifications up to this version no longer stand.
    Forgotten {
        upto: u64,
    },
}

/// An object as a listing shows it.
#[derive(Drop)]
pub struct Entry {
    /// The name in the folder that was listed.
    pub name: String,
    /// The number of bytes.
    pub size: u64,
    /// In milliseconds since 1970-01-01T00:00:00Z.
    pub stamp: i64,
}

/// A ratification that stands.
#[derive(Drop)]
pub struct Ratification {
    pub version: u64,
    /// The name of the staged object.
    pub name: String,
}

/// What a put-if-absent did.
#[derive(Clone, Copy)]
pub enum Put {
    /// It made the object.
    Made,
    /// An object stands there, and nothing was done.
    Exists,
}

/// What a ratification did.
#[derive(Clone, Copy)]
pub enum Ratify {
    /// The version was ratified.
    Made,
    /// Another version is the next one, and nothing was done.
    Lost { next: u64 },
}

/// Why a call of a store has no answer.
#[derive(Clone, Copy, Debug, Error)]
pub enum StoreError {
    /// The store failed, and counted that.
    #[error("the store failed")]
    Failed,
    /// There was no memory for the call.
    #[error("out of memory")]
    OutOfMemory,
}

impl From<AllocError> for StoreError {
    ghost from_gives = { λ _ e. e ≡ OutOfMemory };

    fn from(_: AllocError) -> Self {
        StoreError::OutOfMemory
    }
}

impl<T: Drop> From<AllocFailed<T>> for StoreError {
    ghost from_gives = { λ _ e. e ≡ OutOfMemory };

    fn from(_: AllocFailed<T>) -> Self {
        StoreError::OutOfMemory
    }
}
