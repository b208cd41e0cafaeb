//! Laws of what is written. Each function does nothing; what it promises is the law.

ghost use Rattle.std.specs.Prelude.{◌≡◌, ℕ, List};
ghost use Rattle.dk_pqmodel.specs.Datum.{Cells};
ghost use Rattle.dk_pqmodel.specs.FileMeans.{FileMeans};
ghost use Rattle.dk_engine.specs.OwnFields.{MeansAlone};
ghost use Rattle.dk_lawful.specs.CheckpointRows.{actions_of_rows};
ghost use Rattle.dk_lawful.specs.CheckpointSchema.{read_fields, written_fields};
ghost use Rattle.dk_rowmap.specs.WrittenRows.{rows_read};

/// A file that a handler wrote of the rows of a checkpoint is one that a checkpoint is read from: it means those rows, each add with
/// a deletion vector that is null, and they mean the actions of the rows that were written (Delta Lake's PROTOCOL.md, "Checkpoint
/// Schema").
pub fn written_files_are_read()
    ensures rows { (bytes : List ℕ) (rows : Cells) → MeansAlone written_fields bytes rows → FileMeans read_fields bytes (rows_read rows) }
    ensures actions { (rows : Cells) → actions_of_rows (rows_read rows) ≡ actions_of_rows rows }
{}
