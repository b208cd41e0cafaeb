//! Reading a checkpoint.
ghost use Rattle.std.specs.Prelude.{◌≡◌, IfErr, IfOk, IfSome, option_map};
ghost use Rattle.std.specs.List.{list_any};
ghost use Rattle.dk_store.specs.Seen.{IfTold, StoreReads};
ghost use Rattle.dk_store.specs.Objects.{content};
ghost use Rattle.dk_pqmodel.specs.RowView.{rows_of};
ghost use Rattle.dk_engine.specs.Answers.{AnswersBy};
ghost use Rattle.dk_engine.specs.Effects.{OnlyReads};
ghost use Rattle.dk_listing.specs.Sizes.{stored_size};
ghost use Rattle.dk_ckread.specs.Reading.{ClassicAnswers, FileAnswers, FoundAnswers, ObjectAnswers, ReadCheckpointRefuses, ReadsGot, RowsAnswer, is_sidecar};

use crate::fault::{damaged, refusal_by};
use dk_engine::{ParquetHandler, Refusal, Which};
use dk_model::{Action, Text};
use dk_pqmodel::Row;
use dk_rowmap::{RowFault, actions_of_rows, read_schema};
use dk_store::{Store, StoreError};
use std::alloc::Global;

/// The rows of a file at the path, of the fields that are read of checkpoints.
fn read_rows(
    alloc: Global,
    parquet: &mut dyn ParquetHandler,
    path: &str,
    bytes: &[u8],
) -> Result<Vec<Row>, Refusal>
    ensures { ReadsGot (λ rows. rows_of rows.items) result (FileAnswers path.now bytes.now) }
{
    let wanted = read_schema(alloc)?;
    match parquet.read_rows(alloc, bytes, &wanted) {
        Ok(rows) => Ok(rows),
        Err(fault) => Err(refusal_by(alloc, path, &fault)?),
    }
}

fn is_sidecar(action: &Action) -> bool
    ensures { result ≡ is_sidecar action.now }
{
    match action {
        Action::Sidecar(_) => true,
        _ => false,
    }
}

/// Whether a sidecar is named.
fn has_sidecar(actions: &[Action]) -> bool
    ensures { result ≡ list_any is_sidecar actions.now }
{
    for action in actions {
        if is_sidecar(action) {
            return true;
        }
    }
    false
}

/// The actions of the rows of the object at the path.
fn actions_in(alloc: Global, path: &str, rows: &[Row]) -> Result<Vec<Action>, Refusal>
    ensures { ReadsGot (λ actions. actions.items) result (RowsAnswer path.now (rows_of rows.now)) }
{
    let actions = match actions_of_rows(alloc, rows) {
        Ok(actions) => actions,
        Err(RowFault::NotAnAction { .. }) => return Err(damaged(alloc, path)?),
        Err(RowFault::OutOfMemory) => return Err(Refusal::OutOfMemory),
    };
    if has_sidecar(&actions) {
        return Err(damaged(alloc, path)?);
    }
    Ok(actions)
}

/// What the bytes of the object at the path mean.
#[tactic(auto, using(crate::proofs::Answers::rows_answer, crate::proofs::Answers::file_refused))]
fn read_bytes(
    alloc: Global,
    parquet: &mut dyn ParquetHandler,
    path: &str,
    bytes: &[u8],
) -> Result<Vec<Action>, Refusal>
    ensures { ReadsGot (λ actions. actions.items) result (ObjectAnswers path.now bytes.now) }
{
    let rows = read_rows(alloc, parquet, path, bytes)?;
    actions_in(alloc, path, &rows)
}

/// What the object means, if it is there.
fn read_object(
    alloc: Global,
    parquet: &mut dyn ParquetHandler,
    path: &str,
    object: Option<Vec<u8>>,
) -> Result<Vec<Action>, Refusal>
    ensures { ReadsGot (λ actions. actions.items) result (FoundAnswers path.now (option_map (λ bytes. bytes.items) object)) }
{
    match object {
        Some(bytes) => read_bytes(alloc, parquet, path, &bytes),
        None => Err(Refusal::Missing {
            path: Text::from_str(alloc, path)?,
        }),
    }
}

/// An object of the store.
fn get_object(store: &mut dyn Store, path: &str) -> Result<Option<Vec<u8>>, StoreError>
    ensures reads { StoreReads (seen store.old) (seen store.new) result }
    ensures found { IfTold (seen store.old) (λ events. IfOk result (λ object. option_map (λ bytes. bytes.items) object ≡ content events path.now)) }
{
    store.get(path)
}

/// Reads the object at the path.
fn read_found(
    alloc: Global,
    store: &mut dyn Store,
    parquet: &mut dyn ParquetHandler,
    path: &str,
) -> Result<Vec<Action>, Refusal>
    ensures reads { OnlyReads (seen store.old) (seen store.new) result }
    ensures refusals { IfErr result ReadCheckpointRefuses }
    ensures means { IfTold (seen store.old) (λ events. AnswersBy (λ actions. actions.items) result (FoundAnswers path.now (content events path.now))) }
{
    let object = get_object(store, path)?;
    read_object(alloc, parquet, path, object)
}

/// Reads a checkpoint in one object that a version names, at its whole path, whose listed size in bytes is `size`: the actions of
/// its rows, in order (Delta Lake's PROTOCOL.md, "Checkpoints", "Checkpoint Schema"). A row that has no action's key is passed over.
///
/// Beside faults of the store and want of memory it is refused, in this order and by nothing else: `Limit` of `Object` where the
/// size is over `limit`, in bytes; `Missing` where the object is absent; `Damaged` at place 0 where it is no Parquet file or a
/// column that is read has another shape; `Unsupported` by the name of the first codec that isn't read, or `CODEC_` and its
/// number, or by `ENCODING_` and the number of the first encoding that isn't read; `Damaged` at place 0 where the file is
/// broken, where a row has an action's key and means no action, and where an action names a sidecar.
pub fn read_classic(
    alloc: Global,
    store: &mut dyn Store,
    parquet: &mut dyn ParquetHandler,
    path: &str,
    size: Option<u64>,
    limit: u64,
) -> Result<Vec<Action>, Refusal>
    ensures reads { OnlyReads (seen store.old) (seen store.new) result }
    ensures refusals { IfErr result ReadCheckpointRefuses }
    ensures means { IfTold (seen store.old) (λ events. size ≡ stored_size events path.now → AnswersBy (λ actions. actions.items) result (ClassicAnswers events limit path.now)) }
{
    match size {
        Some(size) if size > limit => Err(Refusal::Limit {
            which: Which::Object,
            value: size,
        }),
        _ => read_found(alloc, store, parquet, path),
    }
}
