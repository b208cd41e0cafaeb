//! Why a case can't be tried.

use std::alloc::{AllocError, AllocFailed};
use std::io;

#[derive(Drop, Debug)]
pub(crate) enum Trouble {
    /// A file can't be read, or a line can't be written.
    Io(io::Error),
    /// A line of a file is no case.
    Form,
    /// A call had no memory, or the program.
    OutOfMemory,
}

impl From<io::Error> for Trouble {
    fn from(error: io::Error) -> Self {
        Trouble::Io(error)
    }
}

impl From<AllocError> for Trouble {
    fn from(_: AllocError) -> Self {
        Trouble::OutOfMemory
    }
}

impl<T: Drop> From<AllocFailed<T>> for Trouble {
    fn from(_: AllocFailed<T>) -> Self {
        Trouble::OutOfMemory
    }
}
