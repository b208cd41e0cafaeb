//! The bytes of a classic checkpoint.

ghost use Rattle.std.specs.Prelude.{◌<◌, ◌^◌, IfOk};
ghost use Rattle.dk_model.specs.WellKept.{IsWellKept};
ghost use Rattle.dk_engine.specs.Usual.{AreWithin};
ghost use Rattle.dk_lawful.specs.Agree.{Stands};
ghost use Rattle.dk_lawful.specs.Checkpoints.{InParquet};
ghost use Rattle.dk_lawful.specs.Contents.{classic_content};
ghost use Rattle.dk_rowmap.specs.ActionRows.{rows_for};
ghost use Rattle.dk_lawful.specs.CheckpointSchema.{written_fields};
ghost use Rattle.dk_ckwrite.specs.Files.{HasNoVectors, IsClassicOf, MakesFile};

use crate::content::classic_actions;
use crate::file::file_of;
use dk_engine::{Limits, ParquetHandler, Refusal};
use dk_model::TableState;
use dk_rowmap::rows_of_actions;
use std::alloc::Global;

/// The bytes of a classic checkpoint of the state at this version (Delta Lake's PROTOCOL.md, "Checkpoints", "Checkpoint Schema").
///
/// `cut` is in milliseconds since 1970-01-01T00:00:00Z: the tombstones are kept whose time is later. The state is well kept, and no
/// deletion vector stands beside a file; the version is below 2 to the 63, and no limit is above its usual number. `Limit` of `Rows`
/// comes with the weight of the rows where that is over the limit, before a byte is made, and then `Limit` of `Object` with the count of
/// the bytes where that is. There is no other refusal but `OutOfMemory`.
pub fn classic(
    alloc: Global,
    parquet: &mut dyn ParquetHandler,
    limits: &Limits,
    state: &TableState,
    version: u64,
    cut: i64,
) -> Result<Vec<u8>, Refusal>
    requires kept { IsWellKept state.now }
    requires vectorless { HasNoVectors state.now }
    requires version { version < 2 ^ 63 }
    requires within { AreWithin limits.now }
    ensures content { IfOk result (λ bytes. InParquet bytes.items (classic_content state.now version cut)) }
    ensures means { IfOk result (λ bytes. IsClassicOf bytes.items version (classic_content state.now version cut)) }
    ensures stands { IfOk result (λ bytes. Stands (classic_content state.now version cut) state.now cut) }
    ensures limits { MakesFile limits.now (rows_for written_fields (classic_content state.now version cut)) result }
{
    let actions = classic_actions(alloc, state, version, cut)?;
    let rows = rows_of_actions(alloc, &actions)?;
    file_of(alloc, parquet, limits, &rows)
}
