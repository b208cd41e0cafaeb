//! The hint of the last checkpoint.

/// What `_last_checkpoint` says of a checkpoint (Delta Lake's PROTOCOL.md, "Last Checkpoint File").
#[derive(Drop)]
pub struct Hint {
    /// The checkpoint's version, from 0 to 9,223,372,036,854,775,807.
    pub version: u64,
    /// How many actions it has, from 0 to 9,223,372,036,854,775,807.
    pub size: u64,
    /// Of how many parts it is, at least 1, where it is in parts.
    pub parts: Option<u32>,
    /// How many add actions it has, where that is said, from 0 to 9,223,372,036,854,775,807.
    pub adds: Option<u64>,
}
