//! Columns of triples to rows.
//!
//! Cells are read down the schema, off the fronts of the columns. The definition level of a cell's
//! first triple says whether the cell is null or its list empty; the repetition level of the next
//! triple says whether a list goes on. Texts are moved out of their triples.

ghost use Rattle.std.specs.Prelude.{◌≡◌, ◌+◌, ◌<◌, ◌≤◌, length, IfOk, [], ◌∷◌};
ghost use Rattle.dk_pqmodel.specs.NodeView.{field_of, fields_of, shape_of};
ghost use Rattle.dk_pqmodel.specs.RowView.{datum_of, cells_of};
ghost use Rattle.dk_pqmodel.specs.Shape.{width_at, width_in, width_of, deepest_at, deepest_in, deepest_of, chars};
ghost use Rattle.dk_levels.specs.Reading.{begins, at_repetition, leaf_at, later_at, list_cells_at, cell_at, cells_at, column_length, present_at};
ghost use Rattle.dk_levels.specs.Solid.{IsSolid, IsSolidShape, AreSolid};
ghost use Rattle.dk_levels.specs.Fronts.{fronts, repeated_at, element_width, cells_before};
ghost use Rattle.dk_levels.specs.Answers.{GivesMeant};

use crate::fronts::{is_at_definition, is_at_repetition, take_nothing, take_value, triples_left};
use crate::levels::{Levels, Repeated, reach};
use crate::width::{element_columns, width};
use dk_pqmodel::{Cell, Node, NodeKind, PqFault, Triple, Value};
use std::alloc::{AllocError, Global};

fn read_key(rest: &mut [Vec<Triple>], place: usize, levels: Levels) -> Result<Cell, PqFault>
    requires { place < length rest.old }
    ensures { GivesMeant (λ c. (datum_of c, fronts rest.new)) result (leaf_at chars levels.repetition levels.definition place (fronts rest.old)) }
{
    match take_value(rest, place, levels)? {
        Value::Chars(text) => Ok(Cell::Chars(text)),
        _ => Err(PqFault::Broken),
    }
}

/// A cell of the node, whose columns begin at the place, and the place behind them.
#[cycle(read)]
fn read_cell(
    node: &Node,
    alloc: Global,
    rest: &mut [Vec<Triple>],
    place: usize,
    levels: Levels,
) -> Result<(Cell, usize), PqFault>
    requires solid { IsSolid (field_of node.now) }
    requires room { place + width_in (field_of node.now) ≤ length rest.old }
    requires deep { levels.definition + deepest_in (field_of node.now) < 256 }
    requires lists { levels.lists ≤ levels.definition }
    ensures cell { GivesMeant (λ c. (datum_of c.0, fronts rest.new)) result
        (cell_at (field_of node.now) levels.repetition levels.definition levels.lists place (fronts rest.old)) }
    ensures next { IfOk result (λ c. c.1 ≡ place + width_in (field_of node.now)) }
{
    if node.nullable && is_at_definition(rest, place, levels.definition) {
        let columns = width(&node.kind);
        take_nothing(rest, columns, place, levels)?;
        return Ok((Cell::Null, place + columns));
    }
    read_present(&node.kind, alloc, rest, place, reach(levels, node))
}

/// A cell that isn't null.
#[cycle(read)]
fn read_present(
    kind: &NodeKind,
    alloc: Global,
    rest: &mut [Vec<Triple>],
    place: usize,
    levels: Levels,
) -> Result<(Cell, usize), PqFault>
    requires solid { IsSolidShape (shape_of kind.now) }
    requires room { place + width_at (shape_of kind.now) ≤ length rest.old }
    requires deep { levels.definition + deepest_at (shape_of kind.now) < 256 }
    requires lists { levels.lists ≤ levels.definition }
    ensures cell { GivesMeant (λ c. (datum_of c.0, fronts rest.new)) result
        (present_at (shape_of kind.now) levels.repetition levels.definition levels.lists place (fronts rest.old)) }
    ensures next { IfOk result (λ c. c.1 ≡ place + width_at (shape_of kind.now)) }
{
    match kind {
        NodeKind::Flag => match take_value(rest, place, levels)? {
            Value::Flag(flag) => Ok((Cell::Flag(flag), place + 1)),
            _ => Err(PqFault::Broken),
        },
        NodeKind::Int32 => match take_value(rest, place, levels)? {
            Value::Int(number) => Ok((Cell::Int(number), place + 1)),
            _ => Err(PqFault::Broken),
        },
        NodeKind::Int64 => match take_value(rest, place, levels)? {
            Value::Int(number) => Ok((Cell::Int(number), place + 1)),
            _ => Err(PqFault::Broken),
        },
        NodeKind::Chars => Ok((read_key(rest, place, levels)?, place + 1)),
        NodeKind::Group(nodes) => {
            let (cells, next) = read_each(nodes, alloc, rest, place, levels)?;
            Ok((Cell::Group(cells), next))
        }
        NodeKind::List(node) => {
            let (cells, next) = read_list(node, Repeated::Elements, alloc, rest, place, levels)?;
            Ok((Cell::List(cells), next))
        }
        NodeKind::Map(node) => {
            let (cells, next) = read_list(node, Repeated::Entries, alloc, rest, place, levels)?;
            Ok((Cell::List(cells), next))
        }
    }
}

/// A cell of each node.
#[cycle(read)]
pub fn read_each(
    nodes: &[Node],
    alloc: Global,
    rest: &mut [Vec<Triple>],
    place: usize,
    levels: Levels,
) -> Result<(Vec<Cell>, usize), PqFault>
    requires solid { AreSolid (fields_of nodes.now) }
    requires room { place + width_of (fields_of nodes.now) ≤ length rest.old }
    requires deep { levels.definition + deepest_of (fields_of nodes.now) < 256 }
    requires lists { levels.lists ≤ levels.definition }
    ensures cells { GivesMeant (λ v. (cells_of v.0.items, fronts rest.new)) result
        (cells_at (fields_of nodes.now) levels.repetition levels.definition levels.lists place (fronts rest.old)) }
    ensures next { IfOk result (λ v. v.1 ≡ place + width_of (fields_of nodes.now)) }
{
    let mut cells = Vec::with_capacity(alloc, nodes.len())?;
    let mut next = place;
    for node in nodes {
        let (cell, after) = read_cell(node, alloc, rest, next, levels)?;
        cells.push(cell)?;
        next = after;
    }
    Ok((cells, next))
}

/// The elements of a list that isn't null, or the entries of a map.
#[cycle(read)]
fn read_list(
    node: &Node,
    repeated: Repeated,
    alloc: Global,
    rest: &mut [Vec<Triple>],
    place: usize,
    levels: Levels,
) -> Result<(Vec<Cell>, usize), PqFault>
    requires solid { IsSolid (field_of node.now) }
    requires room { place + element_width repeated (field_of node.now) ≤ length rest.old }
    requires deep { levels.definition + 1 + deepest_in (field_of node.now) < 256 }
    requires lists { levels.lists ≤ levels.definition }
    ensures cells { GivesMeant (λ v. (cells_of v.0.items, fronts rest.new)) result
        (list_cells_at (repeated_at repeated (field_of node.now) levels.repetition (levels.definition + 1) (levels.lists + 1) place)
        (repeated_at repeated (field_of node.now) (levels.lists + 1) (levels.definition + 1) (levels.lists + 1) place)
        (element_width repeated (field_of node.now)) levels.repetition levels.definition levels.lists place (fronts rest.old)) }
    ensures next { IfOk result (λ v. v.1 ≡ place + element_width repeated (field_of node.now)) }
{
    let mut cells = Vec::new(alloc);
    if is_at_definition(rest, place, levels.definition) {
        let columns = element_columns(node, repeated);
        take_nothing(rest, columns, place, levels)?;
        return Ok((cells, place + columns));
    }
    let lists = levels.lists + 1;
    let inner = Levels {
        repetition: levels.repetition,
        definition: levels.definition + 1,
        lists,
    };
    let (first, next) = read_element(node, repeated, alloc, rest, place, inner)?;
    cells.push(first)?;
    let later = Levels {
        repetition: lists,
        ..inner
    };
    read_later(node, repeated, alloc, rest, place, later, &mut cells)?;
    Ok((cells, next))
}

/// The elements behind the first, as long as the list goes on.
#[cycle(read)]
fn read_later(
    node: &Node,
    repeated: Repeated,
    alloc: Global,
    rest: &mut [Vec<Triple>],
    place: usize,
    levels: Levels,
    cells: &mut Vec<Cell>,
) -> Result<(), PqFault>
    requires solid { IsSolid (field_of node.now) }
    requires room { place + element_width repeated (field_of node.now) ≤ length rest.old }
    requires deep { levels.definition + deepest_in (field_of node.now) < 256 }
    requires lists { levels.lists ≤ levels.definition }
    requires later { levels.repetition ≡ levels.lists }
    ensures { GivesMeant (λ _. (cells_of cells.new.items, fronts rest.new)) result
        (cells_before (cells_of cells.old.items)
        (later_at (repeated_at repeated (field_of node.now) levels.lists levels.definition levels.lists place)
        (λ ds. begins (at_repetition levels.lists) ds place) (column_length (fronts rest.old) place) (fronts rest.old))) }
{
    let most = triples_left(rest, place);
    for i in 0..most {
        if !is_at_repetition(rest, place, levels.lists) {
            return Ok(());
        }
        let (cell, _next) = read_element(node, repeated, alloc, rest, place, levels)?;
        cells.push(cell)?;
    }
    if is_at_repetition(rest, place, levels.lists) {
        Err(PqFault::Broken)
    } else {
        Ok(())
    }
}

#[cycle(read)]
fn read_element(
    node: &Node,
    repeated: Repeated,
    alloc: Global,
    rest: &mut [Vec<Triple>],
    place: usize,
    levels: Levels,
) -> Result<(Cell, usize), PqFault>
    requires solid { IsSolid (field_of node.now) }
    requires room { place + element_width repeated (field_of node.now) ≤ length rest.old }
    requires deep { levels.definition + deepest_in (field_of node.now) < 256 }
    requires lists { levels.lists ≤ levels.definition }
    ensures cell { GivesMeant (λ c. (datum_of c.0, fronts rest.new)) result
        (repeated_at repeated (field_of node.now) levels.repetition levels.definition levels.lists place (fronts rest.old)) }
    ensures next { IfOk result (λ c. c.1 ≡ place + element_width repeated (field_of node.now)) }
{
    match repeated {
        Repeated::Elements => read_cell(node, alloc, rest, place, levels),
        Repeated::Entries => {
            let key = read_key(rest, place, levels)?;
            let (value, next) = read_cell(node, alloc, rest, place + 1, levels)?;
            Ok((Cell::Group(pair(alloc, key, value)?), next))
        }
    }
}

fn pair(alloc: Global, key: Cell, value: Cell) -> Result<Vec<Cell>, AllocError>
    ensures { IfOk result (λ v. v.items ≡ key ∷ value ∷ []) }
{
    let mut cells = Vec::with_capacity(alloc, 2)?;
    cells.push(key)?;
    cells.push(value)?;
    Ok(cells)
}
