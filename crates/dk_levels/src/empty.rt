//! Columns without a triple.

ghost use Rattle.std.specs.Prelude.{◌≡◌, ◌++◌, OnOk};
ghost use Rattle.dk_pqmodel.specs.NodeView.{fields_of, shape_of};
ghost use Rattle.dk_levels.specs.Borrowed.{borrowed_columns};
ghost use Rattle.dk_pqmodel.specs.Shape.{width_at, width_of};
ghost use Rattle.dk_pqmodel.specs.Triples.{empty_columns};

use crate::borrowed::BorrowedTriple;
use dk_pqmodel::{Node, NodeKind};
use std::alloc::{AllocError, Global};

/// Adds an empty column for each leaf of the nodes, with room for so many triples.
#[cycle(add)]
pub fn add_columns(
    alloc: Global,
    columns: &mut Vec<Vec<BorrowedTriple<'_>>>,
    nodes: &[Node],
    room: usize,
) -> Result<(), AllocError>
    ensures { OnOk result (borrowed_columns columns.new.items ≡ borrowed_columns columns.old.items ++ empty_columns (width_of (fields_of nodes.now))) }
{
    for node in nodes {
        add_kind(alloc, columns, &node.kind, room)?;
    }
    Ok(())
}

#[cycle(add)]
fn add_kind(
    alloc: Global,
    columns: &mut Vec<Vec<BorrowedTriple<'_>>>,
    kind: &NodeKind,
    room: usize,
) -> Result<(), AllocError>
    ensures { OnOk result (borrowed_columns columns.new.items ≡ borrowed_columns columns.old.items ++ empty_columns (width_at (shape_of kind.now))) }
{
    match kind {
        NodeKind::Flag | NodeKind::Int32 | NodeKind::Int64 | NodeKind::Chars => {
            add_column(alloc, columns, room)
        }
        NodeKind::Group(nodes) => add_columns(alloc, columns, nodes, room),
        NodeKind::List(node) => add_kind(alloc, columns, &node.kind, room),
        NodeKind::Map(node) => {
            add_column(alloc, columns, room)?;
            add_kind(alloc, columns, &node.kind, room)?;
            Ok(())
        }
    }
}

/// Adds an empty column, with room for so many triples.
fn add_column(
    alloc: Global,
    columns: &mut Vec<Vec<BorrowedTriple<'_>>>,
    room: usize,
) -> Result<(), AllocError>
    ensures { OnOk result (borrowed_columns columns.new.items ≡ borrowed_columns columns.old.items ++ empty_columns 1) }
{
    let column = Vec::with_capacity(alloc, room)?;
    columns.push(column)?;
    Ok(())
}
