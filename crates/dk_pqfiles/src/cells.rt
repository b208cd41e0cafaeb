//! Rows of cases. A row is an array of cells; a cell is null, a flag, a number, a text, or an array: `["group", cell ..]`, `["list", cell ..]`.

use crate::fields::LEVELS;
use crate::trouble::Trouble;
use dk_pqmodel::{Cell, Row};
use serde_json::Value;
use std::alloc::Global;

/// The rows of an array of rows.
pub(crate) fn rows_of(alloc: Global, value: &Value) -> Result<Vec<Row>, Trouble> {
    let mut rows = Vec::new(alloc);
    for item in value.as_array().ok_or(Trouble::Form)? {
        let cells = cells_of(LEVELS, alloc, item.as_array().ok_or(Trouble::Form)?)?;
        rows.push(Row { cells })?;
    }
    Ok(rows)
}

#[cycle(cells)]
fn cells_of(levels: u8, alloc: Global, items: &[Value]) -> Result<Vec<Cell>, Trouble> {
    let mut cells = Vec::new(alloc);
    for item in items {
        cells.push(cell_of(levels, alloc, item)?)?;
    }
    Ok(cells)
}

#[cycle(cells)]
fn cell_of(levels: u8, alloc: Global, value: &Value) -> Result<Cell, Trouble> {
    if levels == 0 {
        return Err(Trouble::Form);
    }
    match value {
        Value::Null => Ok(Cell::Null),
        Value::Bool(flag) => Ok(Cell::Flag(*flag)),
        Value::Number(_) => Ok(Cell::Int(value.as_i64().ok_or(Trouble::Form)?)),
        Value::String(text) => Ok(Cell::Chars(text.clone()?)),
        Value::Array(items) => inner_of(levels - 1, alloc, items),
        _ => Err(Trouble::Form),
    }
}

#[cycle(cells)]
fn inner_of(levels: u8, alloc: Global, items: &[Value]) -> Result<Cell, Trouble> {
    let (first, rest) = items.split_first().ok_or(Trouble::Form)?;
    let cells = cells_of(levels, alloc, rest)?;
    match first.as_str().ok_or(Trouble::Form)? {
        "group" => Ok(Cell::Group(cells)),
        "list" => Ok(Cell::List(cells)),
        _ => Err(Trouble::Form),
    }
}

/// Whether rows have the same content.
pub(crate) fn are_same(rows: &[Row], others: &[Row]) -> bool {
    if rows.len() != others.len() {
        return false;
    }
    for (row, other) in rows.iter().zip(others) {
        if !same_each(&row.cells, &other.cells) {
            return false;
        }
    }
    true
}

#[cycle(same)]
fn same_each(cells: &[Cell], others: &[Cell]) -> bool {
    if cells.len() != others.len() {
        return false;
    }
    for (cell, other) in cells.iter().zip(others) {
        if !is_same(cell, other) {
            return false;
        }
    }
    true
}

#[cycle(same)]
fn is_same(cell: &Cell, other: &Cell) -> bool {
    match (cell, other) {
        (Cell::Null, Cell::Null) => true,
        (Cell::Flag(flag), Cell::Flag(second)) => flag == second,
        (Cell::Int(number), Cell::Int(second)) => number == second,
        (Cell::Chars(text), Cell::Chars(second)) => text.as_str() == second.as_str(),
        (Cell::Group(cells), Cell::Group(others)) => same_each(cells, others),
        (Cell::List(cells), Cell::List(others)) => same_each(cells, others),
        _ => false,
    }
}
