//! The parts of a page's body.

ghost use Rattle.std.specs.Prelude.{◌≡◌, length, option_map};
ghost use Rattle.dk_grammar.specs.Digits.{number_of};
ghost use Rattle.dk_pages.specs.Pages.{page_of};
ghost use Rattle.dk_pages.specs.Split.{cut, levels, parts_of, sized, split_of, split_v1, split_v2};

use crate::page::PageView;
use dk_pqmodel::{PageKind, PqFault};

/// The parts of a page's body, without the lengths that stand between them.
#[derive(Clone, Copy)]
pub struct Split<'a> {
    /// The runs of the repetition levels.
    pub rep: &'a [u8],
    /// The runs of the definition levels.
    pub def: &'a [u8],
    /// The values, as their encoding has them.
    pub values: &'a [u8],
}

impl<'a> PageView<'a> {
    ghost use Rattle.dk_pages.specs.Pages.{AnswersOrBroken, page_of};
    ghost use Rattle.dk_pages.specs.Split.{parts_of, split_of};

    /// The parts of the body, by the greatest repetition and definition level of the page's column (Apache Parquet, "Data Pages"
    /// and "Nested Encoding"). `Broken` comes exactly where a stated length passes the body's end, and there is no other refusal. It
    /// takes no memory.
    ///
    /// A data page of the first version leaves levels out where their greatest is 0. One of the second version has them in the
    /// lengths that its header says, whatever the greatest levels. A dictionary page has none.
    pub fn split(&self, rep: u8, def: u8) -> Result<Split<'a>, PqFault>
        ensures { AnswersOrBroken parts_of result (split_of rep def (page_of self.now)) }
    {
        match split_page(self, rep, def) {
            Some(parts) => Ok(parts),
            None => Err(PqFault::Broken),
        }
    }
}

fn split_page<'a>(page: &PageView<'a>, rep: u8, def: u8) -> Option<Split<'a>>
    ensures { option_map parts_of result ≡ split_of rep def (page_of page.now) }
{
    match page.kind {
        PageKind::DataV1 => split_v1(rep, def, page.body),
        PageKind::DataV2 => split_v2(page.rep_bytes as usize, page.def_bytes as usize, page.body),
        PageKind::Dictionary => Some(Split {
            rep: &[],
            def: &[],
            values: page.body,
        }),
    }
}

fn split_v1(rep: u8, def: u8, body: &[u8]) -> Option<Split<'_>>
    ensures { option_map parts_of result ≡ split_v1 rep def body.now }
{
    let (rep, rest) = levels(rep, body)?;
    let (def, values) = levels(def, rest)?;
    Some(Split { rep, def, values })
}

fn split_v2(rep_bytes: usize, def_bytes: usize, body: &[u8]) -> Option<Split<'_>>
    ensures { option_map parts_of result ≡ split_v2 rep_bytes def_bytes body.now }
{
    let (rep, rest) = cut(rep_bytes, body)?;
    let (def, values) = cut(def_bytes, rest)?;
    Some(Split { rep, def, values })
}

/// The levels of a data page of the first version, and the bytes behind them.
fn levels(greatest: u8, bytes: &[u8]) -> Option<(&[u8], &[u8])>
    ensures { option_map (λ x. (x.0.now, x.1.now)) result ≡ levels greatest bytes.now }
{
    if greatest == 0 {
        return Some((&[], bytes));
    }
    sized(bytes)
}

/// Bytes behind their number, and the bytes behind them.
pub(crate) fn sized(bytes: &[u8]) -> Option<(&[u8], &[u8])>
    ensures { option_map (λ x. (x.0.now, x.1.now)) result ≡ sized bytes.now }
{
    let (size, rest) = cut(4, bytes)?;
    cut(number(size) as usize, rest)
}

/// The first `size` bytes, and those behind them.
pub(crate) fn cut(size: usize, bytes: &[u8]) -> Option<(&[u8], &[u8])>
    ensures { option_map (λ x. (x.0.now, x.1.now)) result ≡ cut size bytes.now }
{
    if size <= bytes.len() {
        Some(bytes.split_at(size))
    } else {
        None
    }
}

/// A number of four bytes, the least first.
fn number(bytes: &[u8]) -> u32
    requires { length bytes.now ≡ 4 }
    ensures { result ≡ number_of 256 bytes.now }
{
    u32::from_le_bytes([bytes[0], bytes[1], bytes[2], bytes[3]])
}
