//! The handlers of formats, as interfaces: any of them serves every command.
ghost use Rattle.std.specs.Prelude.{◌≡◌, ◌≤◌, IfOk, OnOk, length};
ghost use Rattle.std.specs.List.{AllByRecursion};
ghost use Rattle.dk_model.specs.CommitText.{reading_of};
ghost use Rattle.dk_model.specs.LineFaults.{GivesLines};
ghost use Rattle.dk_model.specs.ReadBack.{IsSound};
ghost use Rattle.dk_model.specs.Written.{text_of};
ghost use Rattle.dk_engine.specs.OwnFields.{MeansAlone};
ghost use Rattle.dk_pqmodel.specs.FileMeans.{FileMeans};
ghost use Rattle.dk_pqmodel.specs.Fits.{Fit};
ghost use Rattle.dk_pqmodel.specs.Reads.{Reads};
ghost use Rattle.dk_pqmodel.specs.RowView.{rows_of};
ghost use Rattle.dk_pqmodel.specs.SchemaView.{fields_in};
ghost use Rattle.dk_pqmodel.specs.Weight.{most_bytes, most_weight, weight};

use dk_model::{Action, Commit, LineFault};
use dk_pqmodel::{PqFault, Row, Schema};
use std::alloc::{AllocError, Global};

/// Reads and writes the text of commits (Delta Lake's PROTOCOL.md, "Actions"), whatever it was asked before.
pub trait JsonHandler: Drop {
    /// The actions of a text, or the number of its first line that means nothing.
    fn read_commit(&mut self, alloc: Global, bytes: &[u8]) -> Result<Commit, LineFault>
        ensures { GivesLines result (reading_of bytes.now) };

    /// The text of these actions: one compact line each. What is written is sound, as the types of its parts keep.
    fn write_actions(&mut self, alloc: Global, actions: &[Action]) -> Result<Vec<u8>, AllocError>
        ensures text { IfOk result (λ text. text.items ≡ text_of actions.now) }
        ensures sound { OnOk result (AllByRecursion IsSound actions.now) };
}

/// Reads and writes the rows of Parquet files (Apache Parquet, "File format", "Nested Types", "Data Pages", "Encodings";
/// parquet.thrift), whatever it was asked before.
pub trait ParquetHandler: Drop {
    /// The rows that a file holds of the wanted fields, with a cell for each wanted field in its order. Fields are found
    /// by their names, and one that the file lacks is null in each row. The first cause that applies is answered:
    /// `NotParquet` where the magic or the footer's length doesn't fit, `Shape` where a wanted leaf has another type or
    /// structure in the file, `Compressed` where one has a codec, `Encoding` where a page of one has an encoding that
    /// isn't read, and `Broken` where none of these applies and yet no rows are meant. There is no other refusal but
    /// `OutOfMemory`.
    fn read_rows(
        &mut self,
        alloc: Global,
        bytes: &[u8],
        wanted: &Schema,
    ) -> Result<Vec<Row>, PqFault>
        ensures { Reads (fields_in wanted.now) bytes.now result };

    /// The bytes of a file that holds the rows, and has the fields of the schema alone: one that is read by more finds
    /// null there. The rows fit the schema, and weigh at most 1,073,741,824: 16 for each of their cells at every depth,
    /// and the length of its text. The bytes are at most 1,024; for each node of the schema 1,024 and twice the lengths
    /// of the names on its path; for each entry of a column 64 and the length of its text.
    fn write_rows(
        &mut self,
        alloc: Global,
        schema: &Schema,
        rows: &[Row],
    ) -> Result<Vec<u8>, AllocError>
        requires fit { Fit (fields_in schema.now) (rows_of rows.now) }
        requires light { weight (rows_of rows.now) ≤ most_weight }
        ensures means { IfOk result (λ v. FileMeans (fields_in schema.now) v.items (rows_of rows.now)) }
        ensures own { IfOk result (λ v. MeansAlone (fields_in schema.now) v.items (rows_of rows.now)) }
        ensures small { IfOk result (λ v. length v.items ≤ most_bytes (fields_in schema.now) (rows_of rows.now)) };
}
