//! What a name in the log's own folder means.

/// The meaning of a name in `_delta_log` (Delta Lake's PROTOCOL.md, "File Types").
#[derive(Clone, Copy, Debug)]
pub enum LogName {
    /// `n.json`: the commit of a version.
    Commit { version: u64 },
    /// `n.checkpoint.parquet`: a checkpoint in one file.
    Classic { version: u64 },
    /// `n.checkpoint.o.p.parquet`: part `o` of a checkpoint of `p` parts.
    Part { version: u64, part: u32, parts: u32 },
    /// `n.checkpoint.u.json`: a checkpoint named by a UUID, in JSON.
    V2Json { version: u64, id: u128 },
    /// `n.checkpoint.u.parquet`: a checkpoint named by a UUID, in Parquet.
    V2Parquet { version: u64, id: u128 },
    /// `x.y.compacted.json`: the sum of the commits from `x` to `y`, both included.
    Compacted { first: u64, last: u64 },
    /// `_last_checkpoint`: the hint.
    Hint,
    /// Any other name, which a reader passes over.
    Other,
}
