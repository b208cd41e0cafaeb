//! Wanted cells from those that are read. Cells are moved and not copied; those of a list take the place of those that are read.

ghost use Rattle.std.specs.Prelude.{◌≡◌, ◌<◌, IfOk, length, option_map, slice_index_or, slice_set};
ghost use Rattle.std.specs.Vec.Iter.{into_iter_items};
ghost use Rattle.dk_pqmodel.specs.Datum.{group, one_cell, no_cells};
ghost use Rattle.dk_pqmodel.specs.Projection.{in_group, in_list, is_missing, pair_of, turned_all, widened, widened_each};
ghost use Rattle.dk_pqmodel.specs.RowView.{cells_of, datum_of};
ghost use Rattle.dk_pqread.specs.Cells.{first_cell, is_atom, key_and_value, taken_for, value_for};
ghost use Rattle.dk_levels.specs.Answers.{GivesMeant};
ghost use Rattle.dk_pqread.specs.PlanView.{plan_of, plans_of};

use crate::plan::{Plan, is_missing};
use dk_pqmodel::{Cell, PqFault};
use std::alloc::{AllocError, Global};
use std::mem;
use std::vec::IntoIter;

/// The wanted cell. `Broken` comes exactly where a map in it has a null key.
#[cycle(widen)]
fn widen(plan: &Plan, alloc: Global, cell: Cell) -> Result<Cell, PqFault>
    ensures { GivesMeant datum_of result (widened (plan_of plan.now) (datum_of cell)) }
{
    match plan {
        Plan::Missing => Ok(Cell::Null),
        Plan::Value { .. } => Ok(cell),
        Plan::Members { plans, .. } => widen_group(plans, alloc, cell),
        Plan::Elements { plan, .. } => widen_list(plan, alloc, cell),
        Plan::Entries { value, .. } => widen_map(value, alloc, cell),
    }
}

#[cycle(widen)]
fn widen_group(plans: &[Plan], alloc: Global, cell: Cell) -> Result<Cell, PqFault>
    ensures { GivesMeant datum_of result (in_group (widened_each (plans_of plans.now)) (datum_of cell)) }
{
    match cell {
        Cell::Group(cells) => Ok(Cell::Group(widen_each(plans, alloc, cells)?)),
        other => Ok(other),
    }
}

#[cycle(widen)]
fn widen_list(plan: &Plan, alloc: Global, cell: Cell) -> Result<Cell, PqFault>
    ensures { GivesMeant datum_of result (in_list (turned_all (widened (plan_of plan.now))) (datum_of cell)) }
{
    match cell {
        Cell::List(mut cells) => {
            widen_all(plan, alloc, &mut cells)?;
            Ok(Cell::List(cells))
        }
        other => Ok(other),
    }
}

#[cycle(widen)]
fn widen_map(value: &Plan, alloc: Global, cell: Cell) -> Result<Cell, PqFault>
    ensures { GivesMeant datum_of result (in_list (turned_all (pair_of (widened (plan_of value.now)))) (datum_of cell)) }
{
    match cell {
        Cell::List(mut cells) => {
            widen_entries(value, alloc, &mut cells)?;
            Ok(Cell::List(cells))
        }
        other => Ok(other),
    }
}

/// A wanted cell for each plan.
#[cycle(widen)]
pub(crate) fn widen_each(
    plans: &[Plan],
    alloc: Global,
    cells: Vec<Cell>,
) -> Result<Vec<Cell>, PqFault>
    ensures { GivesMeant (λ v. cells_of v.items) result (widened_each (plans_of plans.now) (cells_of cells.items)) }
{
    let mut own = cells.into_iter();
    let mut wide = Vec::with_capacity(alloc, plans.len())?;
    for plan in plans {
        wide.push(widen_next(plan, alloc, &mut own)?)?;
    }
    Ok(wide)
}

/// The wanted cell of a plan, out of the next cell that is read. It is null where nothing is read for it.
#[cycle(widen)]
fn widen_next(plan: &Plan, alloc: Global, own: &mut IntoIter<Cell>) -> Result<Cell, PqFault>
    ensures { GivesMeant (λ c. (datum_of c, cells_of (into_iter_items own.new))) result
        (taken_for (is_missing (plan_of plan.now)) (widened (plan_of plan.now)) (cells_of (into_iter_items own.old))) }
{
    if is_missing(plan) {
        return Ok(Cell::Null);
    }
    let Some(cell) = next_cell(own) else {
        return Err(PqFault::Broken);
    };
    widen(plan, alloc, cell)
}

/// The elements of a list, each in the place of the one that is read.
#[cycle(widen)]
fn widen_all(plan: &Plan, alloc: Global, cells: &mut [Cell]) -> Result<(), PqFault>
    ensures { GivesMeant (λ _. cells_of cells.new) result (turned_all (widened (plan_of plan.now)) (cells_of cells.old)) }
{
    for place in 0..cells.len() {
        let cell = take(cells, place);
        cells[place] = widen(plan, alloc, cell)?;
    }
    Ok(())
}

/// The entries of a map, each in the place of the one that is read.
#[cycle(widen)]
fn widen_entries(value: &Plan, alloc: Global, cells: &mut [Cell]) -> Result<(), PqFault>
    ensures { GivesMeant (λ _. cells_of cells.new) result (turned_all (pair_of (widened (plan_of value.now))) (cells_of cells.old)) }
{
    for place in 0..cells.len() {
        let cell = take(cells, place);
        cells[place] = widen_entry(value, alloc, cell)?;
    }
    Ok(())
}

/// A key and a value. A null key is refused.
#[cycle(widen)]
fn widen_entry(value: &Plan, alloc: Global, cell: Cell) -> Result<Cell, PqFault>
    ensures { GivesMeant datum_of result (pair_of (widened (plan_of value.now)) (datum_of cell)) }
{
    let Some((key, own)) = key_and_value(cell) else {
        return Err(PqFault::Broken);
    };
    let wanted = widen_value(value, alloc, own)?;
    Ok(pair(alloc, key, wanted)?)
}

/// The value of an entry. It is null where the file has none.
#[cycle(widen)]
fn widen_value(value: &Plan, alloc: Global, own: Option<Cell>) -> Result<Cell, PqFault>
    ensures { GivesMeant datum_of result (value_for (widened (plan_of value.now)) (option_map datum_of own)) }
{
    match own {
        Some(cell) => widen(value, alloc, cell),
        None => Ok(Cell::Null),
    }
}

/// The key and the value, if there is one, of a map's entry.
fn key_and_value(cell: Cell) -> Option<(Cell, Option<Cell>)>
    ensures { option_map (λ x. (datum_of x.0, option_map datum_of x.1)) result ≡ key_and_value (datum_of cell) }
{
    let Cell::Group(cells) = cell else {
        return None;
    };
    let mut cells = cells.into_iter();
    let key = next_cell(&mut cells)?;
    let value = next_cell(&mut cells);
    if next_cell(&mut cells).is_some() {
        return None;
    }
    if is_atom(&key) {
        Some((key, value))
    } else {
        None
    }
}

/// Takes the cell at the place, and leaves null there.
fn take(cells: &mut [Cell], place: usize) -> Cell
    requires { place < length cells.old }
    ensures taken { result ≡ slice_index_or cells.old place result }
    ensures left { cells.new ≡ slice_set cells.old place Cell.Null }
{
    mem::replace(&mut cells[place], Cell::Null)
}

fn next_cell(cells: &mut IntoIter<Cell>) -> Option<Cell>
    ensures { first_cell (cells_of (into_iter_items cells.old)) ≡ (option_map datum_of result, cells_of (into_iter_items cells.new)) }
{
    cells.next()
}

fn pair(alloc: Global, key: Cell, value: Cell) -> Result<Cell, AllocError>
    ensures { IfOk result (λ c. datum_of c ≡ group (one_cell (datum_of key) (one_cell (datum_of value) no_cells))) }
{
    let mut cells = Vec::with_capacity(alloc, 2)?;
    cells.push(key)?;
    cells.push(value)?;
    Ok(Cell::Group(cells))
}

/// Whether the cell is a value.
fn is_atom(cell: &Cell) -> bool
    ensures { result ≡ is_atom (datum_of cell.now) }
{
    match cell {
        Cell::Flag(_) | Cell::Int(_) | Cell::Chars(_) => true,
        Cell::Null | Cell::Group(_) | Cell::List(_) => false,
    }
}
