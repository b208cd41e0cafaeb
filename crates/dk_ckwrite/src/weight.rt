//! How much rows weigh.

ghost use Rattle.std.specs.Prelude.{◌≡◌, ◌<◌, ◌^◌, ◌≤◌, MatchOption};
ghost use Rattle.dk_pqmodel.specs.RowView.{cells_of, datum_of, rows_of};
ghost use Rattle.dk_pqmodel.specs.Weight.{weight, weight_in, weight_of};
ghost use Rattle.dk_ckwrite.specs.Files.{told_weight};

use dk_pqmodel::{Cell, Row};

/// What a cell weighs without its text and without the cells in it.
const CELL_WEIGHT: u64 = 16;

/// The weight of rows: 16 for each of their cells at every depth, and the length of its text. One that is greater than the greatest
/// `u64` is told as that.
pub(crate) fn weight_of(rows: &[Row]) -> u64
    ensures { result ≡ told_weight (rows_of rows.now) }
{
    match counted(rows) {
        Some(weight) => weight,
        None => u64::MAX,
    }
}

/// The weight of rows, if it is below 2 to the 64.
fn counted(rows: &[Row]) -> Option<u64>
    ensures { MatchOption result (2 ^ 64 ≤ weight (rows_of rows.now)) (λ w. w ≡ weight (rows_of rows.now)) }
{
    let mut total = 0_u64;
    for row in rows {
        let cells = weight_of_all(&row.cells)?;
        total = total.checked_add(cells)?;
    }
    Some(total)
}

/// The weight of cells, if it is below 2 to the 64.
#[cycle(weigh)]
fn weight_of_all(cells: &[Cell]) -> Option<u64>
    ensures { MatchOption result (2 ^ 64 ≤ weight_of (cells_of cells.now)) (λ w. w ≡ weight_of (cells_of cells.now)) }
{
    let mut total = 0_u64;
    for cell in cells {
        let one = weight_of_cell(cell)?;
        total = total.checked_add(one)?;
    }
    Some(total)
}

/// The weight of a cell, if it is below 2 to the 64.
#[cycle(weigh)]
fn weight_of_cell(cell: &Cell) -> Option<u64>
    ensures { MatchOption result (2 ^ 64 ≤ weight_in (datum_of cell.now)) (λ w. w ≡ weight_in (datum_of cell.now)) }
{
    match cell {
        Cell::Null | Cell::Flag(_) | Cell::Int(_) => Some(CELL_WEIGHT),
        Cell::Chars(text) => CELL_WEIGHT.checked_add(text.len() as u64),
        Cell::Group(cells) | Cell::List(cells) => CELL_WEIGHT.checked_add(weight_of_all(cells)?),
    }
}
