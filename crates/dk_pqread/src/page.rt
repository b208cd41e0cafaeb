//! The triples of a data page.

ghost use Rattle.std.specs.Prelude.{◌≡◌, map, option_map};
ghost use Rattle.dk_pages.specs.Pages.{page_of};
ghost use Rattle.dk_pages.specs.Split.{parts_of};
ghost use Rattle.dk_pqmodel.specs.ColumnView.{column_of, value_of};
ghost use Rattle.dk_pqread.specs.ColumnView.{column_at};
ghost use Rattle.dk_pqread.specs.Meanings.{Finds};
ghost use Rattle.dk_pqread.specs.PageMeaning.{AddsTriples, PageHolds, PartsHold, is_data};

use crate::column::Column;
use crate::runs::{count_full, read_levels};
use crate::scan::is_level_code;
use crate::values::read_values;
use crate::zip::add_triples;
use dk_pages::{PageView, Split};
use dk_pqmodel::{PageKind, PqFault, Triple, Value};
use std::alloc::Global;

/// Adds the triples of a data page.
pub(crate) fn add_page(
    alloc: Global,
    triples: &mut Vec<Triple>,
    column: &Column,
    dictionary: Option<&[Value]>,
    page: &PageView<'_>,
) -> Result<(), PqFault>
    ensures { Finds (λ _. column_of triples.new) result
        (AddsTriples (column_of triples.old) (PageHolds (column_at column.now) (option_map (λ d. map value_of d.now) dictionary.entry) (page_of page.now))) }
{
    if !is_data(page.kind) {
        return Err(PqFault::Broken);
    }
    if !is_level_code(column.rep, page.rep_code) {
        return Err(PqFault::Broken);
    }
    if !is_level_code(column.def, page.def_code) {
        return Err(PqFault::Broken);
    }
    let parts = match page.split(column.rep, column.def) {
        Ok(parts) => parts,
        Err(_) => return Err(PqFault::Broken),
    };
    let count = page.values as usize;
    add_parts(
        alloc,
        triples,
        column,
        dictionary,
        page.encoding,
        &parts,
        count,
    )
}

fn is_data(kind: PageKind) -> bool
    ensures { result ≡ is_data kind }
{
    match kind {
        PageKind::DataV1 | PageKind::DataV2 => true,
        PageKind::Dictionary => false,
    }
}

/// Adds so many triples, whose levels and values stand in these parts.
fn add_parts(
    alloc: Global,
    triples: &mut Vec<Triple>,
    column: &Column,
    dictionary: Option<&[Value]>,
    code: i32,
    parts: &Split<'_>,
    count: usize,
) -> Result<(), PqFault>
    ensures { Finds (λ _. column_of triples.new) result
        (AddsTriples (column_of triples.old) (PartsHold (column_at column.now) (option_map (λ d. map value_of d.now) dictionary.entry) code count (parts_of parts.now))) }
{
    let repetitions = read_levels(alloc, column.rep, parts.rep, count)?;
    let definitions = read_levels(alloc, column.def, parts.def, count)?;
    let full = count_full(&definitions, column.def, count);
    let values = read_values(alloc, column, dictionary, code, parts.values, full)?;
    add_triples(triples, column, &repetitions, &definitions, values, count)
}
