//! Pages of a column, as their headers tell them apart.

/// The pages of a column.
#[derive(Clone, Copy)]
pub enum PageKind {
    /// Values, with their levels behind the length of each.
    DataV1,
    /// Values, with their levels, whose lengths stand in the header.
    DataV2,
    /// The values that the column's data pages name by their places.
    Dictionary,
}

/// What a page header says (parquet.thrift, PageHeader). Sizes are in bytes, as the body stands in the file.
#[derive(Clone, Copy)]
pub struct PageHeader {
    pub kind: PageKind,
    /// How many bytes the body has.
    pub size: u32,
    /// How many values there are, nulls among them; of a dictionary page, how many entries.
    pub values: u32,
    /// The code of the values' encoding.
    pub encoding: i32,
    /// The code of the repetition levels' encoding; 3 (RLE) but in a data page of the first version.
    pub rep_code: i32,
    /// The code of the definition levels' encoding; 3 (RLE) but in a data page of the first version.
    pub def_code: i32,
    /// The bytes of the repetition levels, in a data page of the second version; else 0.
    pub rep_bytes: u32,
    /// The bytes of the definition levels, in a data page of the second version; else 0.
    pub def_bytes: u32,
}
