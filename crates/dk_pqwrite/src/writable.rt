//! Whether rows can be written: they fit a schema, and aren't too heavy.

ghost use Rattle.std.specs.Prelude.{◌≡◌, ◌+◌, ◌<◌, ◌≤◌, ◌↔◌, IsTrue, MatchOption};
ghost use Rattle.dk_pqmodel.specs.Datum.{int};
ghost use Rattle.dk_pqmodel.specs.Fits.{AllBy, CellBy, EachBy, Fit, OnGroup, OnLeaf, OnList, fits_leaf, in_i32};
ghost use Rattle.dk_pqmodel.specs.NodeView.{field_of, fields_of, shape_of};
ghost use Rattle.dk_pqmodel.specs.RowView.{cells_of, datum_of, rows_of};
ghost use Rattle.dk_pqmodel.specs.SchemaView.{fields_in};
ghost use Rattle.dk_pqmodel.specs.Shape.{chars, entry, flag, key, leaf, no_fields, one_field};
ghost use Rattle.dk_pqmodel.specs.Weight.{most_weight, weight, weight_in, weight_of};

use dk_pqmodel::{Cell, Node, NodeKind, Row, Schema};

/// The most that rows weigh.
const MOST_WEIGHT: u64 = 1_073_741_824;

/// What a cell weighs without its text and without the cells in it.
const CELL_WEIGHT: u64 = 16;

/// Whether rows can be written: they fit the schema, and weigh at most 1,073,741,824: 16 for each of their cells at every depth, and the
/// length of its text. It stops at the first row that doesn't, and takes no memory.
pub fn can_be_written(schema: &Schema, rows: &[Row]) -> bool
    ensures { IsTrue result ↔ (Fit (fields_in schema.now) (rows_of rows.now) × (weight (rows_of rows.now) ≤ most_weight)) }
{
    let mut left = MOST_WEIGHT;
    for row in rows {
        if !fit_each(&row.cells, &schema.nodes) {
            return false;
        }
        let Some(rest) = left_behind_all(&row.cells, left) else {
            return false;
        };
        left = rest;
    }
    true
}

/// Whether a cell fits a node.
#[cycle(fit)]
fn fits(cell: &Cell, node: &Node) -> bool
    ensures { IsTrue result ↔ CellBy fits_leaf (datum_of cell.now) (field_of node.now) }
{
    match cell {
        Cell::Null => node.nullable,
        Cell::Flag(_) => is_flag(&node.kind),
        Cell::Int(number) => fits_number(*number, &node.kind),
        Cell::Chars(_) => is_text(&node.kind),
        Cell::Group(cells) => fits_group(cells, &node.kind),
        Cell::List(cells) => fits_list(cells, &node.kind),
    }
}

/// Whether the cells of a group fit the kind.
#[cycle(fit)]
fn fits_group(cells: &[Cell], kind: &NodeKind) -> bool
    ensures { IsTrue result ↔ OnGroup (shape_of kind.now) (EachBy fits_leaf (cells_of cells.now)) }
{
    match kind {
        NodeKind::Group(nodes) => fit_each(cells, nodes),
        NodeKind::Flag
        | NodeKind::Int32
        | NodeKind::Int64
        | NodeKind::Chars
        | NodeKind::List(_)
        | NodeKind::Map(_) => false,
    }
}

/// Whether the elements of a list, or the entries of a map, fit the kind.
#[cycle(fit)]
fn fits_list(cells: &[Cell], kind: &NodeKind) -> bool
    ensures { IsTrue result ↔ OnList (shape_of kind.now) (AllBy fits_leaf (cells_of cells.now)) }
{
    match kind {
        NodeKind::List(element) => fit_all(cells, element),
        NodeKind::Map(value) => fit_entries(cells, value),
        NodeKind::Flag | NodeKind::Int32 | NodeKind::Int64 | NodeKind::Chars | NodeKind::Group(_) =>
            false,
    }
}

/// Whether there is a cell for each node, and each fits its node.
#[cycle(fit)]
#[tactic(auto, using(crate::proofs::CellCounts::as_many))]
fn fit_each(cells: &[Cell], nodes: &[Node]) -> bool
    ensures { IsTrue result ↔ EachBy fits_leaf (cells_of cells.now) (fields_of nodes.now) }
{
    if cells.len() != nodes.len() {
        return false;
    }
    for i in 0..cells.len() {
        if !fits(&cells[i], &nodes[i]) {
            return false;
        }
    }
    true
}

/// Whether each of the cells fits the node.
#[cycle(fit)]
fn fit_all(cells: &[Cell], node: &Node) -> bool
    ensures { IsTrue result ↔ AllBy fits_leaf (cells_of cells.now) (field_of node.now) }
{
    for cell in cells {
        if !fits(cell, node) {
            return false;
        }
    }
    true
}

/// Whether each of the cells is an entry of a map of such values.
#[cycle(fit)]
fn fit_entries(cells: &[Cell], value: &Node) -> bool
    ensures { IsTrue result ↔ AllBy fits_leaf (cells_of cells.now) (entry (field_of value.now)) }
{
    for cell in cells {
        if !fits_entry(cell, value) {
            return false;
        }
    }
    true
}

/// Whether a cell is an entry of a map of such values: a group of a key and a value.
#[cycle(fit)]
fn fits_entry(cell: &Cell, value: &Node) -> bool
    ensures { IsTrue result ↔ CellBy fits_leaf (datum_of cell.now) (entry (field_of value.now)) }
{
    match cell {
        Cell::Group(pair) => fits_pair(pair, value),
        Cell::Null | Cell::Flag(_) | Cell::Int(_) | Cell::Chars(_) | Cell::List(_) => false,
    }
}

/// Whether the cells are a key and a value.
#[cycle(fit)]
#[tactic(auto, using(crate::proofs::CellCounts::two_cells))]
fn fits_pair(cells: &[Cell], value: &Node) -> bool
    ensures { IsTrue result ↔ EachBy fits_leaf (cells_of cells.now) (one_field key (one_field (field_of value.now) no_fields)) }
{
    match cells {
        [key, own] => is_key(key) && fits(own, value),
        _ => false,
    }
}

/// Whether a cell is the key of a map: a text.
fn is_key(cell: &Cell) -> bool
    ensures { IsTrue result ↔ CellBy fits_leaf (datum_of cell.now) key }
{
    match cell {
        Cell::Chars(_) => true,
        Cell::Null | Cell::Flag(_) | Cell::Int(_) | Cell::Group(_) | Cell::List(_) => false,
    }
}

/// Whether it is the kind of flags.
fn is_flag(kind: &NodeKind) -> bool
    ensures { IsTrue result ↔ (shape_of kind.now ≡ leaf flag) }
{
    match kind {
        NodeKind::Flag => true,
        NodeKind::Int32
        | NodeKind::Int64
        | NodeKind::Chars
        | NodeKind::Group(_)
        | NodeKind::List(_)
        | NodeKind::Map(_) => false,
    }
}

/// Whether it is the kind of texts.
fn is_text(kind: &NodeKind) -> bool
    ensures { IsTrue result ↔ (shape_of kind.now ≡ leaf chars) }
{
    match kind {
        NodeKind::Chars => true,
        NodeKind::Flag
        | NodeKind::Int32
        | NodeKind::Int64
        | NodeKind::Group(_)
        | NodeKind::List(_)
        | NodeKind::Map(_) => false,
    }
}

/// Whether a number fits the kind.
fn fits_number(number: i64, kind: &NodeKind) -> bool
    ensures { IsTrue result ↔ OnLeaf (shape_of kind.now) (λ l. IsTrue (fits_leaf (int number) l)) }
{
    match kind {
        NodeKind::Int32 => is_in_i32(number),
        NodeKind::Int64 => true,
        NodeKind::Flag
        | NodeKind::Chars
        | NodeKind::Group(_)
        | NodeKind::List(_)
        | NodeKind::Map(_) => false,
    }
}

/// Whether a number is in the range of `i32`.
fn is_in_i32(number: i64) -> bool
    ensures { result ≡ in_i32 number }
{
    -2_147_483_648 <= number && number <= 2_147_483_647
}

/// What is left of a budget behind the weight of cells; none where they weigh more.
#[cycle(weigh)]
pub(crate) fn left_behind_all(cells: &[Cell], budget: u64) -> Option<u64>
    ensures { MatchOption result (budget < weight_of (cells_of cells.now)) (λ left. left + weight_of (cells_of cells.now) ≡ budget) }
{
    let mut left = budget;
    for cell in cells {
        left = left_behind(cell, left)?;
    }
    Some(left)
}

/// What is left of a budget behind the weight of a cell; none where it weighs more.
#[cycle(weigh)]
fn left_behind(cell: &Cell, budget: u64) -> Option<u64>
    ensures { MatchOption result (budget < weight_in (datum_of cell.now)) (λ left. left + weight_in (datum_of cell.now) ≡ budget) }
{
    let left = budget.checked_sub(CELL_WEIGHT)?;
    match cell {
        Cell::Null | Cell::Flag(_) | Cell::Int(_) => Some(left),
        Cell::Chars(text) => left.checked_sub(text.len() as u64),
        Cell::Group(cells) | Cell::List(cells) => left_behind_all(cells, left),
    }
}
