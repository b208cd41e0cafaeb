//! What the footer and the page headers alone say against reading a column.

ghost use Rattle.std.specs.Prelude.{◌≡◌, map, option_and_then, option_map};
ghost use Rattle.dk_pages.specs.Pages.{page_of};
ghost use Rattle.dk_pqmeta.specs.View.{chunk_view, group_view};
ghost use Rattle.dk_pqread.specs.ColumnView.{column_at};
ghost use Rattle.dk_pqread.specs.LeafView.{leaf_of};
ghost use Rattle.dk_pqread.specs.PlanView.{path_of};
ghost use Rattle.dk_pqmodel.specs.Scans.{chunk_at, code_in, codec_in, codec_of, first_compressed, first_place, first_unread, is_level_code, is_read_code, is_value_code, unread_code, unread_in, values_on_page};

use crate::column::Column;
use crate::leaf::Leaf;
use dk_pages::{PageView, next_page};
use dk_pqmeta::{Chunk, RowGroup};
use dk_pqmodel::PageKind;

/// The codes of the encodings that are read.
pub(crate) const PLAIN: i32 = 0;

pub(crate) const PLAIN_DICTIONARY: i32 = 2;

pub(crate) const RLE: i32 = 3;

pub(crate) const RLE_DICTIONARY: i32 = 8;

/// The group's chunk of the path.
pub(crate) fn chunk_of<'a>(group: &'a RowGroup, path: &Vec<String>) -> Option<&'a Chunk>
    ensures { option_map (λ c. chunk_view c.now) result ≡ chunk_at (path_of path.now.items) (group_view group.now).columns }
{
    group.columns.get(path)
}

/// The first column with a codec other than UNCOMPRESSED in one of its chunks, and the first such codec.
pub(crate) fn first_compressed<'a>(
    columns: &'a [Column],
    groups: &[RowGroup],
) -> Option<(&'a Column, i32)>
    ensures { option_map (λ x. (path_of x.0.now.path.items, x.1)) result ≡ first_compressed (map column_at columns.now) (map group_view groups.now) }
{
    for column in columns {
        if let Some(codec) = codec_in(&column.path, groups) {
            return Some((column, codec));
        }
    }
    None
}

fn codec_in(path: &Vec<String>, groups: &[RowGroup]) -> Option<i32>
    ensures { result ≡ codec_in (path_of path.now.items) (map group_view groups.now) }
{
    for group in groups {
        if let Some(codec) = codec_of_path(group, path) {
            return Some(codec);
        }
    }
    None
}

fn codec_of_path(group: &RowGroup, path: &Vec<String>) -> Option<i32>
    ensures { result ≡ option_and_then codec_of (chunk_at (path_of path.now.items) (group_view group.now).columns) }
{
    let chunk = chunk_of(group, path)?;
    if chunk.codec == 0 {
        None
    } else {
        Some(chunk.codec)
    }
}

/// The first column with an encoding that isn't read in one of its pages, and the first such encoding. `before` is the file up to its
/// footer.
pub(crate) fn first_unread<'a>(
    before: &[u8],
    columns: &'a [Column],
    groups: &[RowGroup],
) -> Option<(&'a Column, i32)>
    ensures { option_map (λ x. (path_of x.0.now.path.items, x.1)) result ≡ first_unread before.now (map column_at columns.now) (map group_view groups.now) }
{
    for column in columns {
        if let Some(code) = code_in(before, column, groups) {
            return Some((column, code));
        }
    }
    None
}

fn code_in(before: &[u8], column: &Column, groups: &[RowGroup]) -> Option<i32>
    ensures { result ≡ code_in before.now (column_at column.now) (map group_view groups.now) }
{
    for group in groups {
        if let Some(code) = code_of_group(before, column, group) {
            return Some(code);
        }
    }
    None
}

fn code_of_group(before: &[u8], column: &Column, group: &RowGroup) -> Option<i32>
    ensures { result ≡ option_and_then (unread_in before.now (column_at column.now)) (chunk_at (path_of column.now.path.items) (group_view group.now).columns) }
{
    let chunk = chunk_of(group, &column.path)?;
    unread_in(before, column, chunk)
}

/// The first encoding in a chunk's pages that isn't read.
fn unread_in(before: &[u8], column: &Column, chunk: &Chunk) -> Option<i32>
    ensures { result ≡ unread_in before.now (column_at column.now) (chunk_view chunk.now) }
{
    let mut place = first_place(chunk) as usize;
    let mut wanted = chunk.values;
    for _ in 0..before.len() {
        if wanted == 0 {
            return None;
        }
        let page = match next_page(before, place) {
            Ok(page) => page,
            Err(_) => return None,
        };
        if let Some(code) = unread_code(column, &page) {
            return Some(code);
        }
        place = page.next;
        wanted = wanted.saturating_sub(u64::from(values_in(page.kind, page.values)));
    }
    None
}

/// Where a chunk's pages begin.
pub(crate) fn first_place(chunk: &Chunk) -> u64
    ensures { result ≡ first_place (chunk_view chunk.now) }
{
    match chunk.dictionary_page {
        Some(place) => place,
        None => chunk.first_page,
    }
}

/// How many values of the column a page holds.
fn values_in(kind: PageKind, values: u32) -> u32
    ensures { result ≡ values_on_page kind values }
{
    match kind {
        PageKind::DataV1 | PageKind::DataV2 => values,
        PageKind::Dictionary => 0,
    }
}

/// The first encoding of the page that isn't read: of its values, of its repetition levels, of its definition levels.
fn unread_code(column: &Column, page: &PageView<'_>) -> Option<i32>
    ensures { result ≡ unread_code (column_at column.now) (page_of page.now) }
{
    if !is_read(page.kind, column.kind, page.encoding) {
        return Some(page.encoding);
    }
    if !is_level_code(column.rep, page.rep_code) {
        return Some(page.rep_code);
    }
    if !is_level_code(column.def, page.def_code) {
        return Some(page.def_code);
    }
    None
}

pub(crate) fn is_level_code(greatest: u8, code: i32) -> bool
    ensures { result ≡ is_level_code greatest code }
{
    greatest == 0 || code == RLE
}

fn is_read(page: PageKind, kind: Leaf, code: i32) -> bool
    ensures { result ≡ is_read_code page (leaf_of kind) code }
{
    match page {
        PageKind::DataV1 | PageKind::DataV2 => is_value_code(kind, code),
        PageKind::Dictionary => code == PLAIN || code == PLAIN_DICTIONARY,
    }
}

fn is_value_code(kind: Leaf, code: i32) -> bool
    ensures { result ≡ is_value_code (leaf_of kind) code }
{
    match kind {
        Leaf::Flag => code == PLAIN || code == RLE,
        Leaf::Int32 | Leaf::Int64 | Leaf::Chars => {
            code == PLAIN || code == PLAIN_DICTIONARY || code == RLE_DICTIONARY
        }
    }
}
