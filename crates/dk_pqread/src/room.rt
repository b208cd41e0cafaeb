//! Levels above their greatest, and plain values that have no room, found before anything of a page is kept.

ghost use Rattle.std.specs.Prelude.{◌≡◌, IfErr, IfOk, IsTrue, length};
ghost use Rattle.dk_pages.specs.Split.{parts_of};
ghost use Rattle.dk_pqread.specs.ColumnView.{column_at};
ghost use Rattle.dk_pqread.specs.LeafView.{leaf_of};
ghost use Rattle.dk_pqread.specs.Meanings.{AreLevelsOf, RefusesMeaning, full_count};
ghost use Rattle.dk_pqread.specs.Room.{InParts, PartsFit, Sieves, has_room};

use crate::column::Column;
use crate::leaf::Leaf;
use crate::runs::{count_levels, levels_fit};
use crate::scan::PLAIN;
use dk_pages::Split;
use dk_pqmodel::PqFault;
use std::alloc::Global;

/// Refuses parts of which a level is above its greatest, or whose bytes have no room for so many plain values as there are triples
/// with one. A run of levels is counted at once, however many it claims.
pub(crate) fn parts_fit(
    alloc: Global,
    column: &Column,
    code: i32,
    parts: &Split<'_>,
    count: usize,
) -> Result<(), PqFault>
    ensures fit { IfOk result (λ _. PartsFit (column_at column.now) code count (parts_of parts.now)) }
    ensures refused { IfErr result (λ fault. RefusesMeaning fault (InParts (column_at column.now) code count (parts_of parts.now))) }
{
    levels_fit(alloc, column.rep, parts.rep, count)?;
    levels_fit(alloc, column.def, parts.def, count)?;
    if code != PLAIN {
        return Ok(());
    }
    plain_fits(alloc, column, parts, count)
}

/// Refuses bytes that have no room for a plain value at each definition level that is the greatest.
fn plain_fits(
    alloc: Global,
    column: &Column,
    parts: &Split<'_>,
    count: usize,
) -> Result<(), PqFault>
    ensures { Sieves result (AreLevelsOf column.now.def count (parts_of parts.now).def)
        (λ levels. IsTrue (has_room (leaf_of column.now.kind) (full_count column.now.def levels) (length (parts_of parts.now).values))) }
{
    let full = count_levels(alloc, column.def, parts.def, count, column.def)?;
    if has_room(column.kind, full, parts.values) {
        Ok(())
    } else {
        Err(PqFault::Broken)
    }
}

/// Whether the bytes have room for so many plain values.
fn has_room(kind: Leaf, count: usize, bytes: &[u8]) -> bool
    ensures { result ≡ has_room (leaf_of kind) count (length bytes.now) }
{
    match kind {
        Leaf::Flag => count <= bytes.len().saturating_mul(8),
        Leaf::Int32 | Leaf::Chars => count <= bytes.len() / 4,
        Leaf::Int64 => count <= bytes.len() / 8,
    }
}
