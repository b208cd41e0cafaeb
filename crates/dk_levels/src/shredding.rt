//! Whole columns from whole rows.

ghost use Rattle.std.specs.Prelude.{◌≡◌, ◌≤◌, length, IfOk, OnOk, ◌<◌};
ghost use Rattle.dk_pqmodel.specs.NodeView.{fields_of};
ghost use Rattle.dk_pqmodel.specs.SchemaView.{fields_in};
ghost use Rattle.dk_pqmodel.specs.RowView.{rows_of};
ghost use Rattle.dk_pqmodel.specs.ColumnView.{columns_in};
ghost use Rattle.dk_pqmodel.specs.Shape.{width_of, deepest_of, root};
ghost use Rattle.dk_pqmodel.specs.Triples.{triples, later_triples};
ghost use Rattle.dk_pqmodel.specs.Fits.{AreRowsOf};
ghost use Rattle.dk_levels.specs.Borrowed.{borrowed_columns};
ghost use Rattle.dk_levels.specs.Places.{Adds};

use crate::borrowed::{BorrowedTriple, owned_columns};
use crate::empty::add_columns;
use crate::levels::TOP;
use crate::to_columns::put_group;
use dk_pqmodel::{Columns, Node, Row, Schema};
use std::alloc::{AllocError, Global};

/// The triples of the rows, one column for each leaf of the schema, in its order (Apache Parquet, "Nested Encoding").
///
/// Rows that fit the schema have its form. The form alone is needed here: a number at an `Int32` may be of any size. Want of memory
/// is the one refusal.
pub fn shred(alloc: Global, schema: &Schema, rows: &[Row]) -> Result<Columns, AllocError>
    requires { AreRowsOf (fields_in schema.now) (rows_of rows.now) }
    ensures { IfOk result (λ c. columns_in c ≡ triples (fields_in schema.now) (rows_of rows.now)) }
{
    let columns = shred_borrowed(alloc, schema, rows)?;
    owned_columns(alloc, &columns)
}

/// The triples of the rows as [`shred`] gives them, with the texts of the rows in place of copies.
///
/// Each row has a triple or more in each column, so there is room for as many from the start.
/// `Err` is want of memory.
pub fn shred_borrowed<'a>(
    alloc: Global,
    schema: &Schema,
    rows: &'a [Row],
) -> Result<Vec<Vec<BorrowedTriple<'a>>>, AllocError>
    requires { AreRowsOf (fields_in schema.now) (rows_of rows.now) }
    ensures { IfOk result (λ v. borrowed_columns v.items ≡ triples (fields_in schema.now) (rows_of rows.now)) }
{
    let mut columns = Vec::new(alloc);
    add_columns(alloc, &mut columns, &schema.nodes, rows.len())?;
    put_rows(&mut columns, &schema.nodes, rows)?;
    Ok(columns)
}

fn put_rows<'a>(
    columns: &mut [Vec<BorrowedTriple<'a>>],
    nodes: &[Node],
    rows: &'a [Row],
) -> Result<(), AllocError>
    requires fits { AreRowsOf (fields_of nodes.now) (rows_of rows.now) }
    requires room { width_of (fields_of nodes.now) ≤ length columns.old }
    requires deep { deepest_of (fields_of nodes.now) < 256 }
    ensures { OnOk result (Adds 0 columns.old columns.new (later_triples (rows_of rows.now) (root (fields_of nodes.now)) 0 0)) }
{
    for row in rows {
        put_group(&row.cells, nodes, columns, 0, TOP)?;
    }
    Ok(())
}
