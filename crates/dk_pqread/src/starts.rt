//! How many rows begin in the chunks, counted before anything of them is kept, and whether their levels and values can be.

ghost use Rattle.std.specs.Prelude.{◌<◌, ◌≤◌, [], IsTrue, All, IfErr, IfOk, map};
ghost use Rattle.dk_pages.specs.Pages.{page_of};
ghost use Rattle.dk_pqmeta.specs.View.{chunk_view, group_view};
ghost use Rattle.dk_pqmodel.specs.FileMeans.{HasTriples};
ghost use Rattle.dk_pqmodel.specs.Footer.{is_new_each};
ghost use Rattle.dk_pqread.specs.ColumnView.{column_at};
ghost use Rattle.dk_pqread.specs.Meanings.{RefusesMeaning, Tells};
ghost use Rattle.dk_pqread.specs.Room.{PageFits};
ghost use Rattle.dk_pqread.specs.Starts.{AllBeginRows, BeginRows, BeginsRows, OnPage, OnPages, starts};

use crate::column::Column;
use crate::dictionary::is_dictionary;
use crate::room::parts_fit;
use crate::runs::count_levels;
use crate::scan::{chunk_of, first_place};
use dk_pages::{PageView, next_page};
use dk_pqmeta::{Chunk, RowGroup};
use dk_pqmodel::PqFault;
use std::alloc::Global;

/// Refuses groups in one of whose repeated columns another number of rows begins than the group has, a level is above its greatest, or
/// plain values have no room. `before` is the file up to its footer. A run of levels is counted at once, however many it claims.
pub(crate) fn rows_begin(
    alloc: Global,
    before: &[u8],
    columns: &[Column],
    groups: &[RowGroup],
) -> Result<(), PqFault>
    // No two chunks of a group have one path, as in every footer.
    requires { All (λ group. IsTrue (is_new_each [] (group_view group).columns)) groups.now }
    ensures { IfErr result (λ fault. RefusesMeaning fault (AllBeginRows before.now (map column_at columns.now) (map group_view groups.now))) }
{
    for group in groups {
        group_begins(alloc, before, columns, group)?;
    }
    Ok(())
}

fn group_begins(
    alloc: Global,
    before: &[u8],
    columns: &[Column],
    group: &RowGroup,
) -> Result<(), PqFault>
    requires { IsTrue (is_new_each [] (group_view group.now).columns) }
    ensures { IfErr result (λ fault. RefusesMeaning fault (BeginRows before.now (group_view group.now) (map column_at columns.now))) }
{
    for column in columns {
        column_begins(alloc, before, column, group)?;
    }
    Ok(())
}

/// Where nothing repeats each triple begins a row, and a chunk's number of triples has been held against the group's rows.
fn column_begins(
    alloc: Global,
    before: &[u8],
    column: &Column,
    group: &RowGroup,
) -> Result<(), PqFault>
    requires { IsTrue (is_new_each [] (group_view group.now).columns) }
    ensures { IfErr result (λ fault. RefusesMeaning fault (BeginsRows before.now (group_view group.now) (column_at column.now))) }
{
    if column.rep == 0 {
        return Ok(());
    }
    let Some(chunk) = chunk_of(group, &column.path) else {
        return Err(PqFault::Broken);
    };
    let begun = chunk_begins(alloc, before, column, chunk)?;
    if begun == group.rows {
        Ok(())
    } else {
        Err(PqFault::Broken)
    }
}

/// How many rows begin in the chunk's pages.
fn chunk_begins(
    alloc: Global,
    before: &[u8],
    column: &Column,
    chunk: &Chunk,
) -> Result<u64, PqFault>
    ensures { Tells starts result (HasTriples before.now (column_at column.now) (chunk_view chunk.now)) }
{
    if chunk.values == 0 {
        return Ok(0);
    }
    let place = first_place(chunk) as usize;
    let first = match next_page(before, place) {
        Ok(first) => first,
        Err(_) => return Err(PqFault::Broken),
    };
    if is_dictionary(first.kind) {
        return pages_begin(alloc, before, column, first.next, chunk.values);
    }
    pages_begin(alloc, before, column, place, chunk.values)
}

/// How many rows begin in the data pages that stand one behind another from the place `start` on and have so many triples.
fn pages_begin(
    alloc: Global,
    before: &[u8],
    column: &Column,
    start: usize,
    count: u64,
) -> Result<u64, PqFault>
    ensures { Tells starts result (OnPages before.now (column_at column.now) start count) }
{
    let mut begun = 0;
    let mut place = start;
    let mut wanted = count;
    while wanted > 0 {
        let page = match next_page(before, place) {
            Ok(page) => page,
            Err(_) => return Err(PqFault::Broken),
        };
        let values = u64::from(page.values);
        if values > wanted {
            return Err(PqFault::Broken);
        }
        begun += page_begins(alloc, column, &page)?;
        place = page.next;
        wanted -= values;
    }
    Ok(begun)
}

/// How many rows begin in a data page whose levels are at most their greatest and whose plain values have room.
fn page_begins(alloc: Global, column: &Column, page: &PageView<'_>) -> Result<u64, PqFault>
    ensures begun { Tells starts result (OnPage (column_at column.now) (page_of page.now)) }
    ensures few { IfOk result (λ n. n ≤ page.now.values) }
    ensures fit { IfOk result (λ _. PageFits (column_at column.now) (page_of page.now)) }
{
    let parts = match page.split(column.rep, column.def) {
        Ok(parts) => parts,
        Err(_) => return Err(PqFault::Broken),
    };
    let count = page.values as usize;
    parts_fit(alloc, column, page.encoding, &parts, count)?;
    let zeros = count_levels(alloc, column.rep, parts.rep, count, 0)?;
    Ok(zeros as u64)
}
