//! The entries of a dictionary page.

ghost use Rattle.std.specs.Prelude.{◌≡◌, option_map};
ghost use Rattle.dk_pages.specs.Entries.{entry_at};

use crate::page::PageView;
use crate::split::{cut, sized};
use dk_pqmodel::PqFault;
use std::alloc::Global;
use std::marker::Model;

/// What the entries of a dictionary page are (Apache Parquet, "Encodings", "Plain").
#[derive(Clone, Copy)]
pub enum Physical {
    /// Numbers of four bytes.
    Int32,
    /// Numbers of eight bytes.
    Int64,
    /// Texts or other bytes, each behind its length.
    Bytes,
}

/// The entries of a dictionary page, as parts of the file's bytes.
#[derive(Drop)]
pub struct Dictionary<'a> {
    entries: Vec<&'a [u8]>,
}

impl<'a> Model for Dictionary<'a> {
    ghost use Rattle.std.specs.Prelude.{ℕ, List, map};

    ghost Value = { List (List ℕ) };

    ghost view = { λ d. map (λ entry. entry.now) d.entries.items };
}

impl<'a> Dictionary<'a> {
    ghost use Rattle.std.specs.Prelude.{◌≡◌, option_map, slice_get};
    ghost use Rattle.dk_pages.specs.Entries.{AnswersEntries, page_entries};
    ghost use Rattle.dk_pages.specs.Pages.{page_of};

    /// The entries of the page (Apache Parquet, "Encodings", "Dictionary Encoding"), in the encoding PLAIN whatever the page names.
    /// `Broken` comes exactly where its body isn't as many plain entries of this kind as it says, with nothing behind them, and
    /// `OutOfMemory` is the one other refusal. What grows is one slice for each entry that stands there.
    pub fn read(
        alloc: Global,
        page: &PageView<'a>,
        kind: Physical,
    ) -> Result<Dictionary<'a>, PqFault>
        ensures { AnswersEntries result (page_entries kind (page_of page.now)) }
    {
        let mut entries = Vec::new(alloc);
        let mut rest = page.body;
        for _ in 0..page.values {
            let Some((entry, behind)) = entry_at(kind, rest) else {
                return Err(PqFault::Broken);
            };
            entries.push(entry)?;
            rest = behind;
        }
        if rest.is_empty() {
            Ok(Dictionary { entries })
        } else {
            Err(PqFault::Broken)
        }
    }

    /// The entry at this place: the bytes of a number, or of a text without its length. `None` comes exactly where the place isn't
    /// below the number of entries. It takes no memory.
    pub fn entry(&self, place: u32) -> Option<&'a [u8]>
        ensures { option_map (λ entry. entry.now) result ≡ slice_get self.now place }
    {
        self.entries.get(place as usize).copied()
    }
}

/// The entry at the front, and the bytes behind it.
fn entry_at(kind: Physical, bytes: &[u8]) -> Option<(&[u8], &[u8])>
    ensures { option_map (λ x. (x.0.now, x.1.now)) result ≡ entry_at kind bytes.now }
{
    match kind {
        Physical::Int32 => cut(4, bytes),
        Physical::Int64 => cut(8, bytes),
        Physical::Bytes => sized(bytes),
    }
}
