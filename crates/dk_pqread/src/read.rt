//! The rows of a file.

ghost use Rattle.std.specs.Prelude.{Some};
ghost use Rattle.dk_pqmodel.specs.Datum.{Cells};
ghost use Rattle.dk_pqmodel.specs.FileMeans.{FileMeans};
ghost use Rattle.dk_pqmodel.specs.RowView.{rows_of};
ghost use Rattle.dk_pqmodel.specs.SchemaView.{fields_in};
ghost use Rattle.dk_levels.specs.Answers.{GivesMeant};
ghost use Rattle.dk_pqmodel.specs.Reads.{Reads};

use crate::counts::counts_agree;
use crate::examine::{Examined, before_footer, examine};
use crate::rows::read_groups;
use crate::starts::rows_begin;
use dk_pqmodel::{PqFault, Row, Schema};
use std::alloc::Global;

/// The rows that a Parquet file holds of the wanted fields (Apache Parquet, "File format", "Nested Types", "Data Pages", "Encodings";
/// parquet.thrift): of each row group as many as it says, one group behind another, with a cell for each wanted field in its order.
///
/// Fields are found by their names, and one that the file lacks is null in each row. The first cause that applies is answered:
/// `NotParquet` where the magic or the footer's length doesn't fit, `Shape` where a wanted leaf has another type or structure in the
/// file, `Compressed` where one has a codec, `Encoding` where a page of one has an encoding that isn't read, and `Broken` where none of
/// these applies and yet no rows are meant. All but the last are found before a value is read. There is no other refusal but
/// `OutOfMemory`.
pub fn read_rows(alloc: Global, bytes: &[u8], wanted: &Schema) -> Result<Vec<Row>, PqFault>
    ensures reads { Reads (fields_in wanted.now) bytes.now result }
    // Where the file means some rows, these are answered, or memory was wanting.
    ensures only { (rows : Cells) → FileMeans (fields_in wanted.now) bytes.now rows → GivesMeant (λ v. rows_of v.items) result (Some rows) }
{
    read_file(alloc, bytes, wanted)
}

fn read_file(alloc: Global, bytes: &[u8], wanted: &Schema) -> Result<Vec<Row>, PqFault>
    ensures { Reads (fields_in wanted.now) bytes.now result }
{
    let Examined {
        footer,
        plans,
        columns,
    } = examine(alloc, bytes, wanted)?;
    if !counts_agree(&columns, &footer.groups, footer.rows) {
        return Err(PqFault::Broken);
    }
    rows_begin(alloc, before_footer(bytes), &columns, &footer.groups)?;
    let rows = read_groups(
        alloc,
        before_footer(bytes),
        &plans,
        &columns,
        &footer.groups,
    )?;
    if rows.len() as u64 == footer.rows {
        Ok(rows)
    } else {
        Err(PqFault::Broken)
    }
}
