//! What a transaction is begun and committed with.

use dk_conflicts::Reads;
use dk_engine::Limits;

/// Within what limits a transaction is begun, checked or committed, and when.
#[derive(Clone, Copy)]
pub struct CommitOptions {
    pub limits: Limits,
    /// The moment of the call, in milliseconds since 1970-01-01T00:00:00Z.
    pub now: i64,
}

/// What a transaction has read of the table, and under which id it commits.
#[derive(Drop)]
pub struct Intent {
    pub reads: Reads,
    /// The first line of its commit has it in lower case with hyphens (Delta Lake's PROTOCOL.md, "Commit Provenance Information"),
    /// and no other transaction may have it.
    pub id: u128,
}
