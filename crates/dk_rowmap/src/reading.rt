//! The actions that rows mean.

ghost use Rattle.std.specs.Prelude.{◌≡◌};
ghost use Rattle.dk_pqmodel.specs.NodeView.{fields_of};
ghost use Rattle.dk_pqmodel.specs.RowView.{row_of, rows_of};
ghost use Rattle.dk_lawful.specs.CheckpointSchema.{read_fields};
ghost use Rattle.dk_lawful.specs.CheckpointRows.{row_means, actions_of_rows as meant_by_rows};
ghost use Rattle.dk_actjson.specs.Faults.{Gives};
ghost use Rattle.dk_rowmap.specs.RowFaults.{GivesRows, GivesMeaning};
ghost use Rattle.dk_rowmap.specs.RowsReading.{rows_reading};

use crate::fault::RowFault;
use crate::part::{Depth, Part};
use crate::schemas::read_schema;
use dk_actjson::{ActionFault, read_action};
use dk_model::Action;
use dk_pqmodel::{Node, Row};
use std::alloc::Global;

#[tactic(auto, unfolding(dk_lawful::specs::CheckpointRows::row_means))]
fn read_row(alloc: Global, nodes: &[Node], row: &Row) -> Result<Option<Action>, ActionFault>
    requires { fields_of nodes.now ≡ read_fields }
    ensures { Gives result (row_means (row_of row.now)) }
{
    let part = Part::Group {
        cells: &row.cells,
        nodes,
        depth: Depth::Row,
    };
    read_action(alloc, part)
}

#[tactic(auto, using(crate::proofs::RowSteps::row_turn, crate::proofs::RowSteps::bad_row))]
fn read_rows(alloc: Global, nodes: &[Node], rows: &[Row]) -> Result<Vec<Action>, RowFault>
    requires { fields_of nodes.now ≡ read_fields }
    ensures { GivesRows result (rows_reading 0 (rows_of rows.now)) }
{
    let mut actions = Vec::new(alloc);
    'rows: for place in 0..rows.len() {
        match read_row(alloc, nodes, &rows[place]) {
            Ok(None) => {}
            Ok(Some(action)) => actions.push(action)?,
            Err(ActionFault::Bad) => return Err(RowFault::NotAnAction { row: place as u64 }),
            Err(ActionFault::OutOfMemory) => return Err(RowFault::OutOfMemory),
        }
    }
    Ok(actions)
}

/// The actions that the rows of a checkpoint mean under the schema of `read_schema` (Delta Lake's PROTOCOL.md, "Checkpoint
/// Schema"), in order: of each row that of the JSON object of its fields that aren't null. A row without a key of an action is
/// passed over. A deletion vector without a storage type counts as absent. `NotAnAction` tells the first row that has a key of an
/// action and means none: it has two such keys, lacks a needed field, or has a number out of its range.
#[tactic(auto, using(crate::proofs::RowSteps::meaning_of))]
pub fn actions_of_rows(alloc: Global, rows: &[Row]) -> Result<Vec<Action>, RowFault>
    ensures exact { GivesRows result (rows_reading 0 (rows_of rows.now)) }
    ensures means { GivesMeaning result (meant_by_rows (rows_of rows.now)) }
{
    let schema = read_schema(alloc)?;
    read_rows(alloc, &schema.nodes, rows)
}
