//! Why a reader gives no value.

use thiserror::Error;

/// Why a reader gives no value, and where. A place is a number of bytes from the front of the bytes that the reader was made of.
#[derive(Clone, Copy, Debug, Error)]
pub enum ThriftFault {
    /// The bytes end inside the value; `at` is the number of bytes.
    #[error("the bytes end at {at}, inside a value")]
    Short { at: usize },
    /// At this place stands a number that is no kind, a varint of more than 64 bits, or a number out of its range. It is the
    /// place of the byte with the kind, or of the first byte of the number; for a kind that was handed in it is the place where
    /// the reader stands.
    #[error("no value of its type at {at}")]
    BadType { at: usize },
    /// A struct or container begins at this place inside 32 others.
    #[error("too many levels at {at}")]
    TooDeep { at: usize },
}
