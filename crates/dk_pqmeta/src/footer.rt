//! What the footer of a file says.

use indexmap::IndexMap;

/// The footer of a Parquet file (Apache Parquet, "Metadata", FileMetaData).
#[derive(Drop)]
pub struct Footer {
    /// How many rows there are.
    pub rows: u64,
    /// The fields at the top of the file's schema, in order.
    pub fields: Vec<FileNode>,
    /// The row groups, in order.
    pub groups: Vec<RowGroup>,
}

/// A node of the file's schema (SchemaElement).
#[derive(Drop)]
pub struct FileNode {
    pub name: String,
    /// 0 required, 1 optional, 2 repeated.
    pub repetition: u8,
    /// The code of the physical type, where the element has one.
    pub physical: Option<i32>,
    /// The fields of a group; none for a leaf.
    pub children: Vec<FileNode>,
}

/// A row group (RowGroup).
#[derive(Drop)]
pub struct RowGroup {
    /// How many rows it has.
    pub rows: u64,
    /// Its chunks by the paths of their columns, in the order of the file.
    pub columns: IndexMap<Vec<String>, Chunk>,
}

/// A chunk of a column (ColumnMetaData). Places are in bytes from the front of the file.
#[derive(Clone, Copy)]
pub struct Chunk {
    /// The code of the physical type.
    pub physical: i32,
    /// The code of the codec; 0 is UNCOMPRESSED.
    pub codec: i32,
    /// How many values there are, nulls among them.
    pub values: u64,
    /// The place of the first data page.
    pub first_page: u64,
    /// The place of the dictionary page, where one above 0 is given.
    pub dictionary_page: Option<u64>,
}
