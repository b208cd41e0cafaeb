//! The columns that are written.

/// What a column's values are (Apache Parquet, "Types"): BOOLEAN, INT32, INT64 or BYTE_ARRAY.
#[derive(Clone, Copy, Debug, PartialEq, Eq)]
pub(crate) enum LeafKind {
    Flag,
    Int32,
    Int64,
    Chars,
}

/// A column that is written: its kind, and its greatest levels.
#[derive(Clone, Copy, Debug, PartialEq, Eq)]
pub(crate) struct LeafColumn {
    pub kind: LeafKind,
    /// The greatest repetition level: how many lists are around its values.
    pub rep: u8,
    /// The greatest definition level: how many of the nodes on its path are optional or repeated.
    pub def: u8,
}
