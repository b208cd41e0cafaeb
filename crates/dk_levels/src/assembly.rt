//! Whole rows from whole columns.

ghost use Rattle.std.specs.Prelude.{◌≡◌, ◌+◌, ◌<◌, ◌≤◌, length, IfOk, IfErr, IsErrOf};
ghost use Rattle.dk_pqmodel.specs.NodeView.{fields_of};
ghost use Rattle.dk_pqmodel.specs.SchemaView.{fields_in};
ghost use Rattle.dk_pqmodel.specs.RowView.{rows_of};
ghost use Rattle.dk_pqmodel.specs.ColumnView.{columns_in};
ghost use Rattle.dk_pqmodel.specs.Shape.{width_of, root};
ghost use Rattle.dk_pqmodel.specs.Datum.{Cells};
ghost use Rattle.dk_pqmodel.specs.Fits.{AreTriplesOf};
ghost use Rattle.dk_levels.specs.Reading.{begins, at_repetition, later_at, cell_at, rows_at, column_length, end_at};
ghost use Rattle.dk_levels.specs.Solid.{AreReadable};
ghost use Rattle.dk_levels.specs.Fronts.{fronts};
ghost use Rattle.dk_levels.specs.Answers.{GivesMeant, IsBrokenOrMemory};

use crate::fronts::{is_all_read, is_at_repetition, triples_left, turn};
use crate::levels::TOP;
use crate::to_rows::read_each;
use crate::width::columns_left;
use dk_pqmodel::{Columns, Node, PqFault, Row, Schema, Triple};
use std::alloc::Global;

/// The rows whose triples the columns are, one for each leaf of the schema, in its order (Apache Parquet, "Nested Encoding").
///
/// Numbers are given as they stand, at an `Int32` too. `Broken` comes exactly where the columns are the triples of no rows: other
/// columns than the schema's leaves, a level above the greatest, a repetition in a first triple, a list that goes on in one column
/// and not in its neighbour, a value where a null stands or of another kind. `OutOfMemory` is the only other fault.
pub fn assemble(alloc: Global, schema: &Schema, columns: &Columns) -> Result<Vec<Row>, PqFault>
    // The columns are the triples of the rows that are answered.
    ensures found { IfOk result (λ v. AreTriplesOf (fields_in schema.now) (rows_of v.items) (columns_in columns.now)) }
    // Where they are the triples of some rows, it is these that are answered.
    ensures only { (rows : Cells) → AreTriplesOf (fields_in schema.now) rows (columns_in columns.now) → IfOk result (λ v. rows_of v.items ≡ rows) }
    // Where they are refused, they are the triples of no rows.
    ensures broken { IsErrOf result PqFault.Broken → (rows : Cells) → AreTriplesOf (fields_in schema.now) rows (columns_in columns.now) → ⊥ }
    ensures faults { IfErr result IsBrokenOrMemory }
{
    assemble_nodes(alloc, &schema.nodes, columns.copy(alloc)?)
}

/// The same, with the same faults, for nodes that needn't be a schema, as the part of a file's own schema that is wanted, and
/// for columns that the caller gives up: their texts are moved into the rows.
pub fn assemble_nodes(alloc: Global, nodes: &[Node], columns: Columns) -> Result<Vec<Row>, PqFault>
    requires { AreReadable (fields_of nodes.now) }
    ensures found { IfOk result (λ v. AreTriplesOf (fields_of nodes.now) (rows_of v.items) (columns_in columns)) }
    ensures only { (rows : Cells) → AreTriplesOf (fields_of nodes.now) rows (columns_in columns) → IfOk result (λ v. rows_of v.items ≡ rows) }
    ensures broken { IsErrOf result PqFault.Broken → (rows : Cells) → AreTriplesOf (fields_of nodes.now) rows (columns_in columns) → ⊥ }
    ensures faults { IfErr result IsBrokenOrMemory }
{
    read_all(nodes, alloc, columns)
}

fn read_all(nodes: &[Node], alloc: Global, columns: Columns) -> Result<Vec<Row>, PqFault>
    requires { AreReadable (fields_of nodes.now) }
    ensures { GivesMeant (λ v. rows_of v.items) result (rows_at (fields_of nodes.now) (columns_in columns)) }
{
    let mut rest = columns.leaves;
    if columns_left(nodes, rest.len()) != Some(0) {
        return Err(PqFault::Broken);
    }
    turn(&mut rest);
    read_to_end(nodes, alloc, &mut rest)
}

fn read_to_end(nodes: &[Node], alloc: Global, rest: &mut [Vec<Triple>]) -> Result<Vec<Row>, PqFault>
    requires readable { AreReadable (fields_of nodes.now) }
    requires room { width_of (fields_of nodes.now) ≤ length rest.old }
    ensures { GivesMeant (λ v. rows_of v.items) result (end_at (fields_of nodes.now) (fronts rest.old)) }
{
    let rows = read_rows(nodes, alloc, rest)?;
    if is_all_read(rest) {
        Ok(rows)
    } else {
        Err(PqFault::Broken)
    }
}

fn read_rows(nodes: &[Node], alloc: Global, rest: &mut [Vec<Triple>]) -> Result<Vec<Row>, PqFault>
    requires readable { AreReadable (fields_of nodes.now) }
    requires room { width_of (fields_of nodes.now) ≤ length rest.old }
    ensures { GivesMeant (λ v. (rows_of v.items, fronts rest.new)) result
        (later_at (cell_at (root (fields_of nodes.now)) 0 0 0 0) (λ ds. begins (at_repetition 0) ds 0) (column_length (fronts rest.old) 0) (fronts rest.old)) }
{
    let mut rows = Vec::new(alloc);
    let most = triples_left(rest, 0);
    for i in 0..most {
        if !is_at_repetition(rest, 0, 0) {
            return Ok(rows);
        }
        let (cells, _next) = read_each(nodes, alloc, rest, 0, TOP)?;
        rows.push(Row { cells })?;
    }
    if is_at_repetition(rest, 0, 0) {
        Err(PqFault::Broken)
    } else {
        Ok(rows)
    }
}
