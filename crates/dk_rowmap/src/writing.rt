//! The rows of actions.

ghost use Rattle.std.specs.Prelude.{◌≡◌, ◌++◌, ◌∷◌, [], ◌<◌, ◌-◌, IfOk, OnOk, map, option_map, replicate, Some};
ghost use Rattle.std.specs.List.{AllByRecursion};
ghost use Rattle.std.specs.Option.{option_to_list};
ghost use Rattle.dk_pqmodel.specs.Datum.{null, group};
ghost use Rattle.dk_pqmodel.specs.Fits.{Fit};
ghost use Rattle.dk_pqmodel.specs.RowView.{datum_of, cells_of, cells_of_list, row_of, rows_of};
ghost use Rattle.dk_model.specs.ActionObject.{object_of};
ghost use Rattle.dk_model.specs.ProtocolObject.{protocol_fields};
ghost use Rattle.dk_model.specs.MetadataObject.{format_fields, metadata_fields};
ghost use Rattle.dk_model.specs.AddObject.{add_fields};
ghost use Rattle.dk_model.specs.RemoveObject.{remove_fields};
ghost use Rattle.dk_model.specs.TxnObject.{txn_fields};
ghost use Rattle.dk_model.specs.DomainObject.{domain_fields};
ghost use Rattle.dk_model.specs.CheckpointObjects.{checkpoint_meta_fields, sidecar_fields};
ghost use Rattle.dk_model.specs.Shown.{object_with};
ghost use Rattle.dk_model.specs.Ranges.{IsCheckpointMetaInRange};
ghost use Rattle.dk_model.specs.ReadBack.{IsReadable, written_of};
ghost use Rattle.dk_lawful.specs.CheckpointSchema.{fields, txn_group, add_group, remove_group, format_group, metadata_group, protocol_group, domain_group, checkpoint_group, sidecar_group, written_fields};
ghost use Rattle.dk_lawful.specs.CheckpointRows.{actions_of_rows};
ghost use Rattle.dk_rowmap.specs.ActionRows.{each_cell, field_cell, cells_in, row_if, rows_for};
ghost use Rattle.dk_rowmap.specs.WrittenRows.{RowsHaveOrderedMaps, IsKept, objects_in, rows_read};

use crate::cells::{and, and_if};
use dk_model::{
    Action, AddFile, CheckpointMeta, Domain, Metadata, Protocol, RemoveFile, SidecarRef, Txn,
};
use dk_pqmodel::{Cell, Row};
use std::alloc::{AllocError, Global};

#[tactic(auto, unfolding(dk_lawful::specs::CheckpointSchema::txn_group, dk_model::specs::TxnObject::txn_fields))]
fn txn_cells(alloc: Global, txn: &Txn) -> Result<Vec<Cell>, AllocError>
    ensures { IfOk result (λ v. map datum_of v.items ≡ each_cell (field_cell (txn_fields txn.now)) (fields txn_group)) }
{
    let cells = and(alloc, Vec::new(alloc), &txn.app_id)?;
    let cells = and(alloc, cells, &txn.version)?;
    let cells = and_if(alloc, cells, &txn.last_updated)?;
    Ok(cells)
}

#[tactic(auto, unfolding(dk_lawful::specs::CheckpointSchema::add_group, dk_model::specs::AddObject::add_fields))]
fn add_cells(alloc: Global, file: &AddFile) -> Result<Vec<Cell>, AllocError>
    ensures { IfOk result (λ v. map datum_of v.items ≡ each_cell (field_cell (add_fields file.now)) (fields add_group)) }
{
    let cells = and(alloc, Vec::new(alloc), &file.path)?;
    let cells = and(alloc, cells, &file.partition_values)?;
    let cells = and(alloc, cells, &file.size)?;
    let cells = and(alloc, cells, &file.modification_time)?;
    let cells = and(alloc, cells, &file.data_change)?;
    let cells = and_if(alloc, cells, &file.stats)?;
    let cells = and_if(alloc, cells, &file.tags)?;
    let cells = and_if(alloc, cells, &file.base_row_id)?;
    let cells = and_if(alloc, cells, &file.default_row_commit_version)?;
    let cells = and_if(alloc, cells, &file.clustering_provider)?;
    Ok(cells)
}

#[tactic(auto, unfolding(dk_lawful::specs::CheckpointSchema::remove_group, dk_model::specs::RemoveObject::remove_fields))]
fn remove_cells(alloc: Global, file: &RemoveFile) -> Result<Vec<Cell>, AllocError>
    ensures { IfOk result (λ v. map datum_of v.items ≡ each_cell (field_cell (remove_fields file.now)) (fields remove_group)) }
{
    let cells = and(alloc, Vec::new(alloc), &file.path)?;
    let cells = and(alloc, cells, &file.deletion_timestamp)?;
    let cells = and(alloc, cells, &file.data_change)?;
    Ok(cells)
}

#[tactic(auto, unfolding(dk_lawful::specs::CheckpointSchema::format_group, dk_model::specs::MetadataObject::format_fields, dk_model::specs::Shown::object_with))]
fn format_cells(alloc: Global, metadata: &Metadata) -> Result<Vec<Cell>, AllocError>
    ensures { IfOk result (λ v. cells_of v.items ≡ cells_in (fields format_group) (object_with (format_fields metadata.now))) }
{
    let cells = and(alloc, Vec::new(alloc), &metadata.provider)?;
    let cells = and(alloc, cells, &metadata.options)?;
    Ok(cells)
}

/// The cells, and a group of other ones.
fn and_group(mut cells: Vec<Cell>, inner: Vec<Cell>) -> Result<Vec<Cell>, AllocError>
    ensures { IfOk result (λ v. map datum_of v.items ≡ map datum_of cells.items ++ group (cells_of inner.items) ∷ []) }
{
    cells.push(Cell::Group(inner))?;
    Ok(cells)
}

#[tactic(auto, unfolding(dk_lawful::specs::CheckpointSchema::metadata_group, dk_model::specs::MetadataObject::metadata_fields))]
fn metadata_cells(alloc: Global, metadata: &Metadata) -> Result<Vec<Cell>, AllocError>
    ensures { IfOk result (λ v. map datum_of v.items ≡ each_cell (field_cell (metadata_fields metadata.now)) (fields metadata_group)) }
{
    let cells = and(alloc, Vec::new(alloc), &metadata.id)?;
    let cells = and_if(alloc, cells, &metadata.name)?;
    let cells = and_if(alloc, cells, &metadata.description)?;
    let cells = and_group(cells, format_cells(alloc, metadata)?)?;
    let cells = and(alloc, cells, &metadata.schema_string)?;
    let cells = and(alloc, cells, &metadata.partition_columns)?;
    let cells = and(alloc, cells, &metadata.configuration)?;
    let cells = and_if(alloc, cells, &metadata.created_time)?;
    Ok(cells)
}

#[tactic(auto, unfolding(dk_lawful::specs::CheckpointSchema::protocol_group, dk_model::specs::ProtocolObject::protocol_fields))]
fn protocol_cells(alloc: Global, protocol: &Protocol) -> Result<Vec<Cell>, AllocError>
    ensures { IfOk result (λ v. map datum_of v.items ≡ each_cell (field_cell (protocol_fields protocol.now)) (fields protocol_group)) }
{
    let cells = and(alloc, Vec::new(alloc), &protocol.min_reader)?;
    let cells = and(alloc, cells, &protocol.min_writer)?;
    let cells = and_if(alloc, cells, &protocol.reader_features)?;
    let cells = and_if(alloc, cells, &protocol.writer_features)?;
    Ok(cells)
}

#[tactic(auto, unfolding(dk_lawful::specs::CheckpointSchema::domain_group, dk_model::specs::DomainObject::domain_fields))]
fn domain_cells(alloc: Global, domain: &Domain) -> Result<Vec<Cell>, AllocError>
    ensures { IfOk result (λ v. map datum_of v.items ≡ each_cell (field_cell (domain_fields domain.now)) (fields domain_group)) }
{
    let cells = and(alloc, Vec::new(alloc), &domain.domain)?;
    let cells = and(alloc, cells, &domain.configuration)?;
    let cells = and(alloc, cells, &domain.removed)?;
    Ok(cells)
}

#[tactic(auto, unfolding(dk_lawful::specs::CheckpointSchema::checkpoint_group, dk_model::specs::CheckpointObjects::checkpoint_meta_fields))]
fn checkpoint_cells(alloc: Global, meta: &CheckpointMeta) -> Result<Vec<Cell>, AllocError>
    requires { IsCheckpointMetaInRange meta.now }
    ensures { IfOk result (λ v. map datum_of v.items ≡ each_cell (field_cell (checkpoint_meta_fields meta.now)) (fields checkpoint_group)) }
{
    let version = meta.version as i64;
    and(alloc, Vec::new(alloc), &version)
}

#[tactic(auto, unfolding(dk_lawful::specs::CheckpointSchema::sidecar_group, dk_model::specs::CheckpointObjects::sidecar_fields))]
fn sidecar_cells(alloc: Global, sidecar: &SidecarRef) -> Result<Vec<Cell>, AllocError>
    ensures { IfOk result (λ v. map datum_of v.items ≡ each_cell (field_cell (sidecar_fields sidecar.now)) (fields sidecar_group)) }
{
    let cells = and(alloc, Vec::new(alloc), &sidecar.path)?;
    let cells = and(alloc, cells, &sidecar.size)?;
    let cells = and(alloc, cells, &sidecar.stamp)?;
    Ok(cells)
}

/// How many groups the schema has.
const GROUPS: usize = 8;

/// Appends so many nulls.
fn push_nulls(cells: &mut Vec<Cell>, count: usize) -> Result<(), AllocError>
    ensures { OnOk result (map datum_of cells.new.items ≡ map datum_of cells.old.items ++ replicate count null) }
{
    'nulls: for _ in 0..count {
        cells.push(Cell::Null)?;
    }
    Ok(())
}

/// A row that is null but for one group, which stands at this place of the schema.
fn row_with(alloc: Global, place: usize, inner: Vec<Cell>) -> Result<Row, AllocError>
    requires { place < 8 }
    ensures { IfOk result (λ row. row_of row ≡ group (cells_of_list (replicate place null ++ group (cells_of inner.items) ∷ replicate (7 - place) null))) }
{
    let mut cells = Vec::with_capacity(alloc, GROUPS)?;
    push_nulls(&mut cells, place)?;
    cells.push(Cell::Group(inner))?;
    push_nulls(&mut cells, GROUPS - 1 - place)?;
    Ok(Row { cells })
}

/// The row of an action, where it has one.
fn row_of_action(alloc: Global, action: &Action) -> Result<Option<Row>, AllocError>
    requires { IsReadable action.now }
    ensures { IfOk result (λ row. option_map row_of row ≡ row_if action.now) }
{
    match action {
        Action::Txn(txn) => Ok(Some(row_with(alloc, 0, txn_cells(alloc, txn)?)?)),
        Action::Add(file) => Ok(Some(row_with(alloc, 1, add_cells(alloc, file)?)?)),
        Action::Remove(file) => Ok(Some(row_with(alloc, 2, remove_cells(alloc, file)?)?)),
        Action::Metadata(metadata) => {
            let cells = metadata_cells(alloc, metadata)?;
            Ok(Some(row_with(alloc, 3, cells)?))
        }
        Action::Protocol(protocol) => {
            let cells = protocol_cells(alloc, protocol)?;
            Ok(Some(row_with(alloc, 4, cells)?))
        }
        Action::Domain(domain) => Ok(Some(row_with(alloc, 5, domain_cells(alloc, domain)?)?)),
        Action::CheckpointMeta(meta) => {
            let cells = checkpoint_cells(alloc, meta)?;
            Ok(Some(row_with(alloc, 6, cells)?))
        }
        Action::Sidecar(sidecar) => {
            let cells = sidecar_cells(alloc, sidecar)?;
            Ok(Some(row_with(alloc, 7, cells)?))
        }
        Action::Info(_) | Action::Cdc => Ok(None),
    }
}

/// Appends the row of an action, where it has one, and says what the types of its parts keep.
fn push_row(alloc: Global, rows: &mut Vec<Row>, action: &Action) -> Result<(), AllocError>
    requires { IsReadable action.now }
    ensures row { OnOk result (map row_of rows.new.items ≡ map row_of rows.old.items ++ option_to_list (row_if action.now)) }
    ensures kept { IsKept action.now }
{
    action.note_kept();
    if let Some(row) = row_of_action(alloc, action)? {
        rows.push(row)?;
    }
    Ok(())
}

/// The rows of actions under the schema of `written_schema` (Delta Lake's PROTOCOL.md, "Checkpoint Schema"), in order: of each the
/// one that stands for the JSON object that is written of it. All groups are null but that of the action's key, in that the fields
/// that the action lacks, and a map has its keys once each, in byte order. What is said of a commit has no row, and neither has a
/// file of changed rows. The versions of protocols and checkpoints are in range, and no file has a deletion vector. `Err` says that
/// memory was wanted and not had.
pub fn rows_of_actions(alloc: Global, actions: &[Action]) -> Result<Vec<Row>, AllocError>
    requires { AllByRecursion IsReadable actions.now }
    ensures rows { IfOk result (λ v. rows_of v.items ≡ rows_for written_fields (written_of actions.now)) }
    ensures fits { IfOk result (λ v. Fit written_fields (rows_of v.items)) }
    ensures maps { IfOk result (λ v. RowsHaveOrderedMaps written_fields (rows_of v.items)) }
    ensures objects { IfOk result (λ v. objects_in written_fields (rows_of v.items) ≡ map object_of (written_of actions.now)) }
    ensures back { IfOk result (λ v. actions_of_rows (rows_read (rows_of v.items)) ≡ Some (written_of actions.now)) }
{
    let mut rows = Vec::new(alloc);
    'actions: for action in actions {
        push_row(alloc, &mut rows, action)?;
    }
    Ok(rows)
}
