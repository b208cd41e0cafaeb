//! Parquet files by the readers and writers of `dk_pqread` and `dk_pqwrite`.

use dk_engine::ParquetHandler;
use dk_pqmodel::{PqFault, Row, Schema};
use dk_pqread::read_rows;
use dk_pqwrite::write_rows;
use std::alloc::{AllocError, Global};

/// Reads and writes Parquet files as `dk_pqread` and `dk_pqwrite` do, without dictionaries. It keeps nothing.
#[derive(Drop)]
pub struct PlainParquet;

impl PlainParquet {
    /// The handler. Takes no memory.
    pub fn new() -> PlainParquet {
        PlainParquet
    }
}

impl ParquetHandler for PlainParquet {
    fn read_rows(
        &mut self,
        alloc: Global,
        bytes: &[u8],
        wanted: &Schema,
    ) -> Result<Vec<Row>, PqFault> {
        read_rows(alloc, bytes, wanted)
    }

    #[tactic(auto, using(crate::proofs::WrittenFields::means_alone))]
    fn write_rows(
        &mut self,
        alloc: Global,
        schema: &Schema,
        rows: &[Row],
    ) -> Result<Vec<u8>, AllocError> {
        write_rows(alloc, schema, rows, false)
    }
}
