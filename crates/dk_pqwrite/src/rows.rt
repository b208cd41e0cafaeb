//! Whole files from rows.

ghost use Rattle.std.specs.Prelude.{◌<◌, ◌≤◌, IfOk, length, map};
ghost use Rattle.dk_levels.specs.Borrowed.{borrowed_columns};
ghost use Rattle.dk_pqmodel.specs.FileMeans.{FileMeans};
ghost use Rattle.dk_pqmodel.specs.Fits.{Fit};
ghost use Rattle.dk_pqmodel.specs.RowView.{rows_of};
ghost use Rattle.dk_pqmodel.specs.SchemaView.{fields_in};
ghost use Rattle.dk_pqmodel.specs.Weight.{most_bytes, most_weight, weight};
ghost use Rattle.dk_pqwrite.specs.SchemaLeaves.{leaf_view};
ghost use Rattle.dk_pqwrite.specs.Shredded.{AreWritable};
ghost use Rattle.dk_pqwrite.specs.WrittenColumns.{WritesColumns};
ghost use Rattle.dk_pqwrite.specs.WrittenFile.{MeansAsWritten, SaysItsBytes};

use crate::chunk::Chunk;
use crate::footer::{MAGIC, end_file};
use crate::group::RowGroup;
use crate::leaves::{SchemaLeaf, leaves_of};
use crate::pages::write_column;
use dk_levels::{BorrowedTriple, shred_borrowed};
use dk_pqmodel::{Row, Schema};
use std::alloc::{AllocError, Global};

/// The bytes of a Parquet file that holds the rows (Apache Parquet).
///
/// The file has one row group, with one data page for each column. Where `dictionary` is true each column of texts has a dictionary page
/// with its distinct texts in the order of their first use. Nothing is compressed. The rows fit the schema, and weigh at most
/// 1,073,741,824: 16 for each of their cells at every depth, and the length of its text. The file's own schema is the one that is written
/// for `schema`, so a reader that looks for other fields finds none of them. The only error is want of memory.
pub fn write_rows(
    alloc: Global,
    schema: &Schema,
    rows: &[Row],
    dictionary: bool,
) -> Result<Vec<u8>, AllocError>
    requires fit { Fit (fields_in schema.now) (rows_of rows.now) }
    requires light { weight (rows_of rows.now) ≤ most_weight }
    ensures means { IfOk result (λ v. FileMeans (fields_in schema.now) v.items (rows_of rows.now)) }
    ensures own { IfOk result (λ v. MeansAsWritten (fields_in schema.now) v.items (rows_of rows.now)) }
    ensures says { IfOk result (λ v. SaysItsBytes (fields_in schema.now) (length rows.now) v.items) }
    ensures small { IfOk result (λ v. length v.items ≤ most_bytes (fields_in schema.now) (rows_of rows.now)) }
{
    let columns = shred_borrowed(alloc, schema, rows)?;
    let leaves = leaves_of(alloc, schema)?;
    let mut bytes = Vec::new(alloc);
    bytes.extend_from_slice(MAGIC)?;
    let chunks = write_columns(alloc, &mut bytes, leaves, &columns, dictionary)?;
    let size = bytes.len() - MAGIC.len();
    let group = RowGroup {
        rows: rows.len() as u64,
        size: size as u64,
        chunks,
    };
    end_file(alloc, &mut bytes, schema, &group)?;
    Ok(bytes)
}

/// Adds the pages of columns, one column behind another, and answers their chunks.
fn write_columns(
    alloc: Global,
    out: &mut Vec<u8>,
    leaves: Vec<SchemaLeaf>,
    columns: &[Vec<BorrowedTriple<'_>>],
    dictionary: bool,
) -> Result<Vec<Chunk>, AllocError>
    requires begun { 0 < length out.old.items }
    requires writable { AreWritable (map leaf_view leaves.items) (borrowed_columns columns.now) }
    ensures { IfOk result (λ chunks. WritesColumns (map leaf_view leaves.items) (borrowed_columns columns.now) chunks.items out.old.items out.new.items) }
{
    let mut leaves = leaves.into_iter();
    let mut chunks = Vec::new(alloc);
    for triples in columns {
        let Some(leaf) = leaves.next() else {
            unreachable!()
        };
        let chunk = write_column(alloc, out, leaf, triples, dictionary)?;
        chunks.push(chunk)?;
    }
    Ok(chunks)
}
