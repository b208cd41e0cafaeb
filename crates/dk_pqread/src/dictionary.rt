//! The entries of a chunk's dictionary.

ghost use Rattle.std.specs.Prelude.{◌≡◌, map};
ghost use Rattle.dk_pages.specs.Pages.{page_of};
ghost use Rattle.dk_pqmodel.specs.ColumnView.{value_of};
ghost use Rattle.dk_pqread.specs.ChunkMeaning.{AreWhole, EntriesHold, is_dictionary, is_entry_code};
ghost use Rattle.dk_pqread.specs.LeafView.{leaf_of};
ghost use Rattle.dk_pqread.specs.Meanings.{Finds};

use crate::leaf::Leaf;
use crate::plain::plain_values;
use crate::scan::{PLAIN, PLAIN_DICTIONARY};
use dk_pages::PageView;
use dk_pqmodel::{PageKind, PqFault, Value};
use std::alloc::Global;

/// The entries of a dictionary page: exactly as many as it says, and nothing behind them.
pub(crate) fn read_entries(
    alloc: Global,
    kind: Leaf,
    page: &PageView<'_>,
) -> Result<Vec<Value>, PqFault>
    ensures { Finds (λ v. map value_of v.items) result (EntriesHold (leaf_of kind) (page_of page.now)) }
{
    if !is_dictionary(page.kind) {
        return Err(PqFault::Broken);
    }
    if !is_entry_code(page.encoding) {
        return Err(PqFault::Broken);
    }
    whole_values(alloc, kind, page.body, page.values as usize)
}

/// So many values in PLAIN, and nothing behind them.
fn whole_values(
    alloc: Global,
    kind: Leaf,
    bytes: &[u8],
    count: usize,
) -> Result<Vec<Value>, PqFault>
    ensures { Finds (λ v. map value_of v.items) result (AreWhole (leaf_of kind) count bytes.now) }
{
    let (values, rest) = plain_values(alloc, kind, bytes, count)?;
    if rest.is_empty() {
        Ok(values)
    } else {
        Err(PqFault::Broken)
    }
}

pub(crate) fn is_dictionary(kind: PageKind) -> bool
    ensures { result ≡ is_dictionary kind }
{
    match kind {
        PageKind::DataV1 | PageKind::DataV2 => false,
        PageKind::Dictionary => true,
    }
}

fn is_entry_code(code: i32) -> bool
    ensures { result ≡ is_entry_code code }
{
    code == PLAIN || code == PLAIN_DICTIONARY
}
