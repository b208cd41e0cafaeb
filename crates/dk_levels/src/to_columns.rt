//! Rows to columns of triples.
//!
//! Each cell adds its triples to the columns of its node, and answers the place behind them.

ghost use Rattle.std.specs.Prelude.{◌≡◌, ◌+◌, ◌<◌, ◌≤◌, length, drop, IfOk, OnOk, [], ◌∷◌};
ghost use Rattle.dk_pqmodel.specs.NodeView.{field_of, fields_of, shape_of};
ghost use Rattle.dk_pqmodel.specs.RowView.{datum_of, cells_of};
ghost use Rattle.dk_levels.specs.Borrowed.{borrowed_value};
ghost use Rattle.dk_pqmodel.specs.Shape.{width_at, width_in, width_of, deepest_in, deepest_of, entry, shape_in, key, one_field, no_fields};
ghost use Rattle.dk_pqmodel.specs.Triples.{nothing, cell_triples, group_triples, later_triples, list_triples};
ghost use Rattle.dk_pqmodel.specs.Fits.{Matches, MatchEach, MatchAll};
ghost use Rattle.dk_levels.specs.Places.{Adds};
ghost use Rattle.dk_levels.specs.Repeated.{element_of};

use crate::borrowed::{BorrowedTriple, BorrowedValue};
use crate::levels::{Levels, Repeated, reach};
use dk_pqmodel::{Cell, Node, NodeKind};
use std::alloc::AllocError;

fn push<'a>(
    columns: &mut [Vec<BorrowedTriple<'a>>],
    leaf: usize,
    levels: Levels,
    value: BorrowedValue<'a>,
) -> Result<usize, AllocError>
    requires { leaf < length columns.old }
    ensures next { IfOk result (λ n. n ≡ leaf + 1) }
    ensures added { OnOk result (Adds leaf columns.old columns.new ((record { repetition = levels.repetition; definition = levels.definition; value = borrowed_value value.entry } ∷ []) ∷ [])) }
{
    columns[leaf].push(BorrowedTriple {
        repetition: levels.repetition,
        definition: levels.definition,
        value,
    })?;
    Ok(leaf + 1)
}

/// One triple without a value in each column of the kind.
fn put_nothing(
    columns: &mut [Vec<BorrowedTriple<'_>>],
    leaf: usize,
    levels: Levels,
    kind: &NodeKind,
) -> Result<usize, AllocError>
    requires { leaf + width_at (shape_of kind.now) ≤ length columns.old }
    ensures next { IfOk result (λ n. n ≡ leaf + width_at (shape_of kind.now)) }
    ensures added { OnOk result (Adds leaf columns.old columns.new (nothing (shape_of kind.now) levels.repetition levels.definition)) }
{
    match kind {
        NodeKind::Flag | NodeKind::Int32 | NodeKind::Int64 | NodeKind::Chars => push(
            columns,
            leaf,
            levels,
            BorrowedValue::Null,
        ),
        NodeKind::Group(nodes) => {
            let mut next = leaf;
            for node in nodes {
                next = put_nothing(columns, next, levels, &node.kind)?;
            }
            Ok(next)
        }
        NodeKind::List(node) => put_nothing(columns, leaf, levels, &node.kind),
        NodeKind::Map(node) => {
            let value = push(columns, leaf, levels, BorrowedValue::Null)?;
            let next = put_nothing(columns, value, levels, &node.kind)?;
            Ok(next)
        }
    }
}

/// An empty list or map: one triple without a value in each column of its elements or entries.
fn put_no_element(
    columns: &mut [Vec<BorrowedTriple<'_>>],
    leaf: usize,
    levels: Levels,
    node: &Node,
    repeated: Repeated,
) -> Result<usize, AllocError>
    requires { leaf + width_in (element_of repeated (field_of node.now)) ≤ length columns.old }
    ensures next { IfOk result (λ n. n ≡ leaf + width_in (element_of repeated (field_of node.now))) }
    ensures added { OnOk result (Adds leaf columns.old columns.new (nothing (shape_in (element_of repeated (field_of node.now))) levels.repetition levels.definition)) }
{
    match repeated {
        Repeated::Elements => put_nothing(columns, leaf, levels, &node.kind),
        Repeated::Entries => {
            let value = push(columns, leaf, levels, BorrowedValue::Null)?;
            let next = put_nothing(columns, value, levels, &node.kind)?;
            Ok(next)
        }
    }
}

#[cycle(put)]
fn put<'a>(
    cell: &'a Cell,
    node: &Node,
    columns: &mut [Vec<BorrowedTriple<'a>>],
    leaf: usize,
    levels: Levels,
) -> Result<usize, AllocError>
    requires fits { Matches (datum_of cell.now) (field_of node.now) }
    requires room { leaf + width_in (field_of node.now) ≤ length columns.old }
    requires deep { levels.definition + deepest_in (field_of node.now) < 256 }
    requires lists { levels.lists ≤ levels.definition }
    ensures next { IfOk result (λ n. n ≡ leaf + width_in (field_of node.now)) }
    ensures added { OnOk result (Adds leaf columns.old columns.new (cell_triples (datum_of cell.now) (field_of node.now) levels.repetition levels.definition levels.lists)) }
{
    match cell {
        Cell::Null => put_nothing(columns, leaf, levels, &node.kind),
        Cell::Flag(flag) => push(
            columns,
            leaf,
            reach(levels, node),
            BorrowedValue::Flag(*flag),
        ),
        Cell::Int(number) => push(
            columns,
            leaf,
            reach(levels, node),
            BorrowedValue::Int(*number),
        ),
        Cell::Chars(text) => push(
            columns,
            leaf,
            reach(levels, node),
            BorrowedValue::Chars(text.as_str()),
        ),
        Cell::Group(cells) => match &node.kind {
            NodeKind::Group(nodes) => put_group(cells, nodes, columns, leaf, reach(levels, node)),
            _ => unreachable!(),
        },
        Cell::List(cells) => match &node.kind {
            NodeKind::List(element) => put_list(
                cells,
                element,
                Repeated::Elements,
                columns,
                leaf,
                reach(levels, node),
            ),
            NodeKind::Map(value) => put_list(
                cells,
                value,
                Repeated::Entries,
                columns,
                leaf,
                reach(levels, node),
            ),
            _ => unreachable!(),
        },
    }
}

/// A cell for each node.
#[cycle(put)]
pub fn put_group<'a>(
    cells: &'a [Cell],
    nodes: &[Node],
    columns: &mut [Vec<BorrowedTriple<'a>>],
    leaf: usize,
    levels: Levels,
) -> Result<usize, AllocError>
    requires fits { MatchEach (cells_of cells.now) (fields_of nodes.now) }
    requires room { leaf + width_of (fields_of nodes.now) ≤ length columns.old }
    requires deep { levels.definition + deepest_of (fields_of nodes.now) < 256 }
    requires lists { levels.lists ≤ levels.definition }
    ensures next { IfOk result (λ n. n ≡ leaf + width_of (fields_of nodes.now)) }
    ensures added { OnOk result (Adds leaf columns.old columns.new (group_triples (cells_of cells.now) (fields_of nodes.now) levels.repetition levels.definition levels.lists)) }
{
    let mut next = leaf;
    for i in 0..cells.len() {
        next = put(&cells[i], &nodes[i], columns, next, levels)?;
    }
    Ok(next)
}

/// A list or a map that isn't null.
#[cycle(put)]
fn put_list<'a>(
    cells: &'a [Cell],
    node: &Node,
    repeated: Repeated,
    columns: &mut [Vec<BorrowedTriple<'a>>],
    leaf: usize,
    levels: Levels,
) -> Result<usize, AllocError>
    requires fits { MatchAll (cells_of cells.now) (element_of repeated (field_of node.now)) }
    requires room { leaf + width_in (element_of repeated (field_of node.now)) ≤ length columns.old }
    requires deep { levels.definition + 1 + deepest_in (element_of repeated (field_of node.now)) < 256 }
    requires lists { levels.lists ≤ levels.definition }
    ensures next { IfOk result (λ n. n ≡ leaf + width_in (element_of repeated (field_of node.now))) }
    ensures added { OnOk result (Adds leaf columns.old columns.new (list_triples (cells_of cells.now) (element_of repeated (field_of node.now)) levels.repetition levels.definition levels.lists)) }
{
    if cells.is_empty() {
        return put_no_element(columns, leaf, levels, node, repeated);
    }
    let lists = levels.lists + 1;
    let inner = Levels {
        repetition: levels.repetition,
        definition: levels.definition + 1,
        lists,
    };
    let next = put_element(&cells[0], node, repeated, columns, leaf, inner)?;
    let later = Levels {
        repetition: lists,
        ..inner
    };
    put_later(cells, node, repeated, columns, leaf, later)?;
    Ok(next)
}

/// The elements behind the first. Each begins at the list's own repetition level.
#[cycle(put)]
fn put_later<'a>(
    cells: &'a [Cell],
    node: &Node,
    repeated: Repeated,
    columns: &mut [Vec<BorrowedTriple<'a>>],
    leaf: usize,
    levels: Levels,
) -> Result<(), AllocError>
    requires fits { MatchAll (cells_of (drop 1 cells.now)) (element_of repeated (field_of node.now)) }
    requires room { leaf + width_in (element_of repeated (field_of node.now)) ≤ length columns.old }
    requires deep { levels.definition + deepest_in (element_of repeated (field_of node.now)) < 256 }
    requires lists { levels.lists ≤ levels.definition }
    requires later { levels.repetition ≡ levels.lists }
    ensures { OnOk result (Adds leaf columns.old columns.new (later_triples (cells_of (drop 1 cells.now)) (element_of repeated (field_of node.now)) levels.definition levels.lists)) }
{
    for i in 1..cells.len() {
        put_element(&cells[i], node, repeated, columns, leaf, levels)?;
    }
    Ok(())
}

#[cycle(put)]
fn put_element<'a>(
    cell: &'a Cell,
    node: &Node,
    repeated: Repeated,
    columns: &mut [Vec<BorrowedTriple<'a>>],
    leaf: usize,
    levels: Levels,
) -> Result<usize, AllocError>
    requires fits { Matches (datum_of cell.now) (element_of repeated (field_of node.now)) }
    requires room { leaf + width_in (element_of repeated (field_of node.now)) ≤ length columns.old }
    requires deep { levels.definition + deepest_in (element_of repeated (field_of node.now)) < 256 }
    requires lists { levels.lists ≤ levels.definition }
    ensures next { IfOk result (λ n. n ≡ leaf + width_in (element_of repeated (field_of node.now))) }
    ensures added { OnOk result (Adds leaf columns.old columns.new (cell_triples (datum_of cell.now) (element_of repeated (field_of node.now)) levels.repetition levels.definition levels.lists)) }
{
    match repeated {
        Repeated::Elements => put(cell, node, columns, leaf, levels),
        Repeated::Entries => put_entry(cell, node, columns, leaf, levels),
    }
}

/// An entry of a map: a group of a key and a value.
#[cycle(put)]
fn put_entry<'a>(
    cell: &'a Cell,
    node: &Node,
    columns: &mut [Vec<BorrowedTriple<'a>>],
    leaf: usize,
    levels: Levels,
) -> Result<usize, AllocError>
    requires fits { Matches (datum_of cell.now) (entry (field_of node.now)) }
    requires room { leaf + width_in (entry (field_of node.now)) ≤ length columns.old }
    requires deep { levels.definition + deepest_in (entry (field_of node.now)) < 256 }
    requires lists { levels.lists ≤ levels.definition }
    ensures next { IfOk result (λ n. n ≡ leaf + width_in (entry (field_of node.now))) }
    ensures added { OnOk result (Adds leaf columns.old columns.new (cell_triples (datum_of cell.now) (entry (field_of node.now)) levels.repetition levels.definition levels.lists)) }
{
    match cell {
        Cell::Group(pair) => put_pair(pair, node, columns, leaf, levels),
        _ => unreachable!(),
    }
}

#[cycle(put)]
fn put_pair<'a>(
    cells: &'a [Cell],
    node: &Node,
    columns: &mut [Vec<BorrowedTriple<'a>>],
    leaf: usize,
    levels: Levels,
) -> Result<usize, AllocError>
    requires fits { MatchEach (cells_of cells.now) (one_field key (one_field (field_of node.now) no_fields)) }
    requires room { leaf + (1 + width_in (field_of node.now)) ≤ length columns.old }
    requires deep { levels.definition + deepest_in (field_of node.now) < 256 }
    requires lists { levels.lists ≤ levels.definition }
    ensures next { IfOk result (λ n. n ≡ leaf + (1 + width_in (field_of node.now))) }
    ensures added { OnOk result (Adds leaf columns.old columns.new
        (group_triples (cells_of cells.now) (one_field key (one_field (field_of node.now) no_fields)) levels.repetition levels.definition levels.lists)) }
{
    let value = push_key(&cells[0], columns, leaf, levels)?;
    let next = put(&cells[1], node, columns, value, levels)?;
    Ok(next)
}

fn push_key<'a>(
    cell: &'a Cell,
    columns: &mut [Vec<BorrowedTriple<'a>>],
    leaf: usize,
    levels: Levels,
) -> Result<usize, AllocError>
    requires fits { Matches (datum_of cell.now) key }
    requires room { leaf < length columns.old }
    ensures next { IfOk result (λ n. n ≡ leaf + 1) }
    ensures added { OnOk result (Adds leaf columns.old columns.new (cell_triples (datum_of cell.now) key levels.repetition levels.definition levels.lists)) }
{
    match cell {
        Cell::Chars(text) => push(columns, leaf, levels, BorrowedValue::Chars(text.as_str())),
        _ => unreachable!(),
    }
}
