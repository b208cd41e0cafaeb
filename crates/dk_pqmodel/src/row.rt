//! Rows, and the cells that they are made of.

ghost use Rattle.std.specs.Prelude.{◌≡◌, IfOk};
ghost use Rattle.dk_pqmodel.specs.RowView.{datum_of, cells_of, row_of};

use std::alloc::{AllocError, Global};

/// What a row holds at one field.
#[derive(Drop)]
pub enum Cell {
    Null,
    Flag(bool),
    /// A number, at a field of either integer kind.
    Int(i64),
    Chars(String),
    /// A cell for each field of the group, in the schema's order.
    Group(Vec<Cell>),
    /// The elements of a list, or the entries of a map. An entry is a group of a key and a value.
    List(Vec<Cell>),
}

/// A row: a cell for each field at the top of its schema, in order.
#[derive(Drop)]
pub struct Row {
    pub cells: Vec<Cell>,
}

impl Row {
    /// A row of the same content. `Err` is want of memory.
    pub fn copy(&self, alloc: Global) -> Result<Row, AllocError>
        ensures { IfOk result (λ r. row_of r ≡ row_of self.now) }
    {
        Ok(Row {
            cells: copy_cells(alloc, &self.cells)?,
        })
    }
}

#[cycle(copies)]
fn copy_cells(alloc: Global, cells: &[Cell]) -> Result<Vec<Cell>, AllocError>
    ensures { IfOk result (λ v. cells_of v.items ≡ cells_of cells.now) }
{
    let mut out = Vec::with_capacity(alloc, cells.len())?;
    for cell in cells {
        out.push(copy_cell(alloc, cell)?)?;
    }
    Ok(out)
}

#[cycle(copies)]
fn copy_cell(alloc: Global, cell: &Cell) -> Result<Cell, AllocError>
    ensures { IfOk result (λ c. datum_of c ≡ datum_of cell.now) }
{
    match cell {
        Cell::Null => Ok(Cell::Null),
        Cell::Flag(flag) => Ok(Cell::Flag(*flag)),
        Cell::Int(number) => Ok(Cell::Int(*number)),
        Cell::Chars(text) => Ok(Cell::Chars(text.clone()?)),
        Cell::Group(cells) => Ok(Cell::Group(copy_cells(alloc, cells)?)),
        Cell::List(cells) => Ok(Cell::List(copy_cells(alloc, cells)?)),
    }
}
