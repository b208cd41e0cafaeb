//! What a column of the file holds.

/// What a column is read as (Apache Parquet, "Types"): BOOLEAN, INT32, INT64 or BYTE_ARRAY.
#[derive(Clone, Copy, Debug, PartialEq, Eq)]
pub(crate) enum Leaf {
    Flag,
    Int32,
    Int64,
    Chars,
}
