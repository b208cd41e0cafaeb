//! The counts that a footer says, held against each other before anything grows.

ghost use Rattle.std.specs.Prelude.{◌≡◌, map, option_map};
ghost use Rattle.dk_pqmeta.specs.View.{chunk_view, group_view};
ghost use Rattle.dk_pqread.specs.ColumnView.{column_at};
ghost use Rattle.dk_pqread.specs.Counts.{chunk_agrees, column_agrees, counts_agree, group_agrees, groups_agree, have_rows, may_have_triples};

use crate::column::Column;
use crate::scan::chunk_of;
use dk_pqmeta::{Chunk, RowGroup};

/// Whether the counts of a footer go together: the groups have so many rows in all, and each column's chunk has as many values as its
/// group has rows where nothing repeats, and no fewer where something does.
pub(crate) fn counts_agree(columns: &[Column], groups: &[RowGroup], rows: u64) -> bool
    ensures { result ≡ counts_agree (map column_at columns.now) (map group_view groups.now) rows }
{
    have_rows(groups, rows) && groups_agree(columns, groups)
}

/// Whether the groups have so many rows in all.
fn have_rows(groups: &[RowGroup], rows: u64) -> bool
    ensures { result ≡ have_rows rows (map group_view groups.now) }
{
    let mut left = rows;
    for group in groups {
        if left < group.rows {
            return false;
        }
        left -= group.rows;
    }
    left == 0
}

fn groups_agree(columns: &[Column], groups: &[RowGroup]) -> bool
    ensures { result ≡ groups_agree (map column_at columns.now) (map group_view groups.now) }
{
    for group in groups {
        if !group_agrees(group, columns) {
            return false;
        }
    }
    true
}

fn group_agrees(group: &RowGroup, columns: &[Column]) -> bool
    ensures { result ≡ group_agrees (group_view group.now) (map column_at columns.now) }
{
    for column in columns {
        if !column_agrees(group, column) {
            return false;
        }
    }
    true
}

fn column_agrees(group: &RowGroup, column: &Column) -> bool
    ensures { result ≡ column_agrees (group_view group.now) (column_at column.now) }
{
    chunk_agrees(column.rep, group.rows, chunk_of(group, &column.path))
}

fn chunk_agrees(rep: u8, rows: u64, chunk: Option<&Chunk>) -> bool
    ensures { result ≡ chunk_agrees rep rows (option_map (λ c. chunk_view c.now) chunk.entry) }
{
    match chunk {
        None => false,
        Some(chunk) => may_have(rep, rows, chunk.values),
    }
}

/// Whether a column of so many rows may have so many triples.
fn may_have(rep: u8, rows: u64, triples: u64) -> bool
    ensures { result ≡ may_have_triples rep rows triples }
{
    if rep == 0 {
        triples == rows
    } else {
        rows <= triples
    }
}
