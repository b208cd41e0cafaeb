//! The file of a checkpoint's rows.

ghost use Rattle.std.specs.Prelude.{◌≤◌, IfOk, length};
ghost use Rattle.dk_pqmodel.specs.Fits.{Fit};
ghost use Rattle.dk_pqmodel.specs.RowView.{rows_of};
ghost use Rattle.dk_pqmodel.specs.SchemaView.{fields_in};
ghost use Rattle.dk_pqmodel.specs.Weight.{most_bytes, most_weight, weight};
ghost use Rattle.dk_engine.specs.OwnFields.{MeansAlone};
ghost use Rattle.dk_engine.specs.Usual.{AreWithin};
ghost use Rattle.dk_lawful.specs.CheckpointSchema.{written_fields};
ghost use Rattle.dk_ckwrite.specs.Files.{IsFileOf, MakesFile};

use crate::weight::weight_of;
use dk_engine::{Limits, ParquetHandler, Refusal, Which};
use dk_pqmodel::{Row, Schema};
use dk_rowmap::written_schema;
use std::alloc::{AllocError, Global};

/// What the handler writes of the rows by the schema.
fn written(
    alloc: Global,
    parquet: &mut dyn ParquetHandler,
    schema: &Schema,
    rows: &[Row],
) -> Result<Vec<u8>, AllocError>
    requires fit { Fit (fields_in schema.now) (rows_of rows.now) }
    requires light { weight (rows_of rows.now) ≤ most_weight }
    ensures means { IfOk result (λ bytes. MeansAlone (fields_in schema.now) bytes.items (rows_of rows.now)) }
    ensures small { IfOk result (λ bytes. length bytes.items ≤ most_bytes (fields_in schema.now) (rows_of rows.now)) }
{
    parquet.write_rows(alloc, schema, rows)
}

/// What the handler writes of the rows of a checkpoint.
fn bytes_of(
    alloc: Global,
    parquet: &mut dyn ParquetHandler,
    rows: &[Row],
) -> Result<Vec<u8>, AllocError>
    requires fit { Fit written_fields (rows_of rows.now) }
    requires light { weight (rows_of rows.now) ≤ most_weight }
    ensures { IfOk result (λ bytes. IsFileOf (rows_of rows.now) bytes.items) }
{
    let schema = written_schema(alloc)?;
    written(alloc, parquet, &schema, rows)
}

/// The bytes of a file of the rows, which fit the schema that is written of checkpoints. `Limit` of `Rows` comes where they weigh more
/// than the limit, and then of `Object` where the bytes are more.
pub(crate) fn file_of(
    alloc: Global,
    parquet: &mut dyn ParquetHandler,
    limits: &Limits,
    rows: &[Row],
) -> Result<Vec<u8>, Refusal>
    requires fit { Fit written_fields (rows_of rows.now) }
    requires within { AreWithin limits.now }
    ensures { MakesFile limits.now (rows_of rows.now) result }
{
    let value = weight_of(rows);
    if limits.rows < value {
        return Err(Refusal::Limit {
            which: Which::Rows,
            value,
        });
    }
    let bytes = bytes_of(alloc, parquet, rows)?;
    let value = bytes.len() as u64;
    if limits.object < value {
        return Err(Refusal::Limit {
            which: Which::Object,
            value,
        });
    }
    Ok(bytes)
}
