//! The endings that come beside the top call.

use std::alloc::{AllocError, AllocFailed};
use std::io;
use std::io::ErrorKind;

/// Why the program ended before its command, or beside it.
#[derive(Drop, Debug)]
pub enum Early {
    /// There is no folder among the words, or one of them isn't UTF-8.
    Usage,
    /// Memory was refused.
    OutOfMemory,
    /// The clock can't be read.
    Clock,
    /// The system gives no random bytes.
    Random,
}

impl Early {
    /// The exit status.
    pub fn code(&self) -> u8 {
        match self {
            Early::Usage => 2,
            Early::OutOfMemory => 9,
            Early::Clock => 22,
            Early::Random => 23,
        }
    }

    /// The answer object for standard error.
    pub fn answer(&self) -> &'static str {
        match self {
            Early::Usage => "{\"usage\":{}}",
            Early::OutOfMemory => "{\"outOfMemory\":{}}",
            Early::Clock => "{\"clock\":{}}",
            Early::Random => "{\"random\":{}}",
        }
    }
}

impl From<AllocError> for Early {
    fn from(_: AllocError) -> Self {
        Early::OutOfMemory
    }
}

impl<T: Drop> From<AllocFailed<T>> for Early {
    fn from(_: AllocFailed<T>) -> Self {
        Early::OutOfMemory
    }
}

/// What hinders the reading of the command line: want of memory, or a word that isn't UTF-8.
impl From<io::Error> for Early {
    fn from(error: io::Error) -> Self {
        match error.kind() {
            ErrorKind::OutOfMemory => Early::OutOfMemory,
            _ => Early::Usage,
        }
    }
}
