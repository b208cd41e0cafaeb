//! Why a text of lines was refused.

use thiserror::Error;

/// Why a text of lines was refused.
#[derive(Clone, Copy, Debug, Error)]
pub enum LineFault {
    /// The line of that number, counted from 1, is the first that means nothing.
    #[error("line {line} means nothing")]
    Bad { line: u64 },
    /// Memory was wanted and not had.
    #[error("out of memory")]
    OutOfMemory,
}
