//! The page that stands at a place of the file.

ghost use Rattle.std.specs.Prelude.{◌≡◌, IfErr, IfOk, option_map};
ghost use Rattle.dk_pqmodel.specs.Pages.{Page, page_at, page_within};
ghost use Rattle.dk_pages.specs.Pages.{AnswersOrBroken, page_of};
ghost use Rattle.dk_pages.specs.Spelled.{IsPageAt};

use crate::fields::read_fields;
use crate::header::header_of;
use dk_pqmodel::{PageHeader, PageKind, PqFault};
use dk_thrift::Reader;

/// A page of a column, whose body is a part of the file's bytes (Apache Parquet, "Data Pages").
#[derive(Clone, Copy)]
pub struct PageView<'a> {
    pub kind: PageKind,
    /// How many values there are, nulls among them; of a dictionary page, how many entries.
    pub values: u32,
    /// The code of the values' encoding.
    pub encoding: i32,
    /// The code of the repetition levels' encoding; 3 (RLE) but in a data page of the first version.
    pub rep_code: i32,
    /// The code of the definition levels' encoding; 3 (RLE) but in a data page of the first version.
    pub def_code: i32,
    /// The bytes of the repetition levels, as the header of a data page of the second version says; else 0.
    pub rep_bytes: u32,
    /// The bytes of the definition levels, as the header of a data page of the second version says; else 0.
    pub def_bytes: u32,
    /// Levels and values, as they stand in the file.
    pub body: &'a [u8],
    /// The place behind the page, in bytes from the front of the file.
    pub next: usize,
}

/// The page whose header begins at the place `at`, in bytes from the front (Apache Parquet, "File format" and "Data Pages").
///
/// `Broken` comes exactly where no page header with a body inside the bytes is spelled there, and there is no other refusal. It takes
/// no memory.
pub fn next_page<'a>(bytes: &'a [u8], at: usize) -> Result<PageView<'a>, PqFault>
    ensures exact { AnswersOrBroken page_of result (page_at bytes.now at) }
    ensures spelled { IfOk result (λ page. IsPageAt bytes.now at (page_of page)) }
    ensures broken { IfErr result (λ _. (page : Page) → IsPageAt bytes.now at page → ⊥) }
{
    match page(bytes, at) {
        Some(page) => Ok(page),
        None => Err(PqFault::Broken),
    }
}

fn page<'a>(bytes: &'a [u8], at: usize) -> Option<PageView<'a>>
    ensures { option_map page_of result ≡ page_at bytes.now at }
{
    let mut reader = Reader::new(bytes.get(at..)?);
    let Ok(fields) = read_fields(&mut reader) else {
        return None;
    };
    let header = header_of(&fields)?;
    page_within(bytes, bytes.len() - reader.rest().len(), &header)
}

/// The page whose body begins at the place `start`.
fn page_within<'a>(bytes: &'a [u8], start: usize, header: &PageHeader) -> Option<PageView<'a>>
    ensures { option_map page_of result ≡ page_within bytes.now start header.now }
{
    let next = start.checked_add(header.size as usize)?;
    let body = bytes.get(start..next)?;
    Some(PageView {
        kind: header.kind,
        values: header.values,
        encoding: header.encoding,
        rep_code: header.rep_code,
        def_code: header.def_code,
        rep_bytes: header.rep_bytes,
        def_bytes: header.def_bytes,
        body,
        next,
    })
}
