//! Why a row has no answer.

use std::alloc::{AllocError, AllocFailed};
use std::io;

/// Why a row has no answer.
#[derive(Drop, Debug)]
pub(crate) enum Trouble {
    /// A file can't be read, or a line can't be written.
    Io(io::Error),
    /// The line is no JSON, or has no row of a call.
    Row,
    /// There is no memory for the call.
    OutOfMemory,
}

impl From<io::Error> for Trouble {
    fn from(error: io::Error) -> Self {
        Trouble::Io(error)
    }
}

impl From<AllocError> for Trouble {
    fn from(_: AllocError) -> Self {
        Trouble::OutOfMemory
    }
}

impl<T: Drop> From<AllocFailed<T>> for Trouble {
    fn from(_: AllocFailed<T>) -> Self {
        Trouble::OutOfMemory
    }
}
