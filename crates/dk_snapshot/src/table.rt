//! What a table is at a version.

use dk_lawful::Segment;
use dk_model::TableState;

/// What a table is at a version.
#[derive(Drop)]
pub struct Snapshot {
    /// From 0 to 9,223,372,036,854,775,807.
    pub version: u64,
    /// The state after all commits up to that version. It has a protocol and metadata.
    pub state: TableState,
    /// The moment up to which tombstones are expired, in milliseconds since 1970-01-01T00:00:00Z: that of the call, less
    /// the time that the table keeps removed files.
    pub cut: i64,
    /// The objects that it was read from.
    pub segment: Segment,
}
