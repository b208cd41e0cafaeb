//! The triples of a chunk, page by page.

ghost use Rattle.std.specs.Prelude.{◌≡◌, ◌≤◌, length, map, option_map};
ghost use Rattle.dk_pqmeta.specs.View.{chunk_view};
ghost use Rattle.dk_pqmodel.specs.ColumnView.{column_of, value_of};
ghost use Rattle.dk_pqmodel.specs.FileMeans.{HasTriples};
ghost use Rattle.dk_pqmodel.specs.FilePages.{physical_type};
ghost use Rattle.dk_pqread.specs.ChunkMeaning.{DataFrom};
ghost use Rattle.dk_pqread.specs.ColumnView.{column_at};
ghost use Rattle.dk_pqread.specs.LeafView.{leaf_of};
ghost use Rattle.dk_pqread.specs.Meanings.{Finds};

use crate::column::Column;
use crate::dictionary::{is_dictionary, read_entries};
use crate::leaf::Leaf;
use crate::page::add_page;
use crate::scan::first_place;
use dk_pages::next_page;
use dk_pqmeta::Chunk;
use dk_pqmodel::{PqFault, Triple, Value};
use std::alloc::Global;

/// The triples of the column that the chunk's pages hold. `before` is the file up to its footer.
pub(crate) fn read_chunk(
    alloc: Global,
    before: &[u8],
    column: &Column,
    chunk: &Chunk,
) -> Result<Vec<Triple>, PqFault>
    ensures { Finds column_of result (HasTriples before.now (column_at column.now) (chunk_view chunk.now)) }
{
    if chunk.codec != 0 {
        return Err(PqFault::Broken);
    }
    if chunk.physical != physical_type(column.kind) {
        return Err(PqFault::Broken);
    }
    if chunk.values == 0 {
        return Ok(Vec::new(alloc));
    }
    let place = first_place(chunk) as usize;
    if place > before.len() {
        return Err(PqFault::Broken);
    }
    let first = match next_page(before, place) {
        Ok(first) => first,
        Err(_) => return Err(PqFault::Broken),
    };
    if !is_dictionary(first.kind) {
        return read_data(alloc, before, column, None, place, chunk.values);
    }
    let entries = read_entries(alloc, column.kind, &first)?;
    read_data(
        alloc,
        before,
        column,
        Some(entries.as_slice()),
        first.next,
        chunk.values,
    )
}

/// The number of a kind's physical type.
fn physical_type(kind: Leaf) -> i32
    ensures { result ≡ physical_type (leaf_of kind) }
{
    match kind {
        Leaf::Flag => 0,
        Leaf::Int32 => 1,
        Leaf::Int64 => 2,
        Leaf::Chars => 6,
    }
}

/// So many triples of the data pages that stand one behind another from the place `start` on.
fn read_data(
    alloc: Global,
    before: &[u8],
    column: &Column,
    dictionary: Option<&[Value]>,
    start: usize,
    count: u64,
) -> Result<Vec<Triple>, PqFault>
    requires { start ≤ length before.now }
    ensures { Finds column_of result (DataFrom before.now (column_at column.now) (option_map (λ d. map value_of d.now) dictionary.entry) start count) }
{
    let mut triples = Vec::new(alloc);
    let mut place = start;
    let mut wanted = count;
    while wanted > 0 {
        let page = match next_page(before, place) {
            Ok(page) => page,
            Err(_) => return Err(PqFault::Broken),
        };
        let values = u64::from(page.values);
        if values > wanted {
            return Err(PqFault::Broken);
        }
        add_page(alloc, &mut triples, column, dictionary, &page)?;
        place = page.next;
        wanted -= values;
    }
    Ok(triples)
}
