//! What a version is opened with.

use dk_engine::Limits;
use dk_lawful::Choice;

/// Within what limits a version is opened, when, and by which choice of its objects.
#[derive(Clone, Copy)]
pub struct OpenOptions {
    pub limits: Limits,
    /// The moment of the call, in milliseconds since 1970-01-01T00:00:00Z.
    pub now: i64,
    pub choice: Choice,
}
