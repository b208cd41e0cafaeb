//! Page headers, from the fields of their structs.

ghost use Rattle.std.specs.Prelude.{◌≡◌};
ghost use Rattle.dk_pqmodel.specs.Footer.{int32, natural32};
ghost use Rattle.dk_pages.specs.Headers.{data_header_in, data_header_v2_in, dictionary_header_in, header_in, typed_header_in};

use crate::fields::Fields;
use crate::numbers::Numbers;
use dk_pqmodel::{PageHeader, PageKind};

/// The code of RLE, the one encoding of levels in pages whose headers name none.
const RLE: i32 = 3;

/// The header of these fields; `None` where one that it needs isn't there, or isn't a number that it takes.
pub(crate) fn header_of(fields: &Fields) -> Option<PageHeader>
    ensures { result ≡ header_in fields.now }
{
    let page_type = fields.own.field_1?;
    let size = natural32(fields.own.field_3?)?;
    typed_header(page_type, size, fields)
}

fn typed_header(page_type: i64, size: u32, fields: &Fields) -> Option<PageHeader>
    ensures { result ≡ typed_header_in page_type size fields.now }
{
    match page_type {
        0 => data_header(size, &fields.data_page),
        2 => dictionary_header(size, &fields.dictionary_page),
        3 => data_header_v2(size, &fields.data_page_v2),
        _ => None,
    }
}

fn data_header(size: u32, inner: &Numbers) -> Option<PageHeader>
    ensures { result ≡ data_header_in size inner.now }
{
    let values = natural32(inner.field_1?)?;
    let encoding = int32(inner.field_2?)?;
    let def_code = int32(inner.field_3?)?;
    let rep_code = int32(inner.field_4?)?;
    Some(PageHeader {
        kind: PageKind::DataV1,
        size,
        values,
        encoding,
        rep_code,
        def_code,
        rep_bytes: 0,
        def_bytes: 0,
    })
}

fn dictionary_header(size: u32, inner: &Numbers) -> Option<PageHeader>
    ensures { result ≡ dictionary_header_in size inner.now }
{
    let values = natural32(inner.field_1?)?;
    let encoding = int32(inner.field_2?)?;
    Some(PageHeader {
        kind: PageKind::Dictionary,
        size,
        values,
        encoding,
        rep_code: RLE,
        def_code: RLE,
        rep_bytes: 0,
        def_bytes: 0,
    })
}

fn data_header_v2(size: u32, inner: &Numbers) -> Option<PageHeader>
    ensures { result ≡ data_header_v2_in size inner.now }
{
    let values = natural32(inner.field_1?)?;
    let encoding = int32(inner.field_4?)?;
    let def_bytes = natural32(inner.field_5?)?;
    let rep_bytes = natural32(inner.field_6?)?;
    Some(PageHeader {
        kind: PageKind::DataV2,
        size,
        values,
        encoding,
        rep_code: RLE,
        def_code: RLE,
        rep_bytes,
        def_bytes,
    })
}

/// A number of 32 bits.
fn int32(number: i64) -> Option<i32>
    ensures { result ≡ int32 number }
{
    if -2_147_483_648 <= number && number <= 2_147_483_647 {
        Some(number as i32)
    } else {
        None
    }
}

/// A count or a size: a number of 32 bits that isn't below zero.
fn natural32(number: i64) -> Option<u32>
    ensures { result ≡ natural32 number }
{
    if 0 <= number && number <= 2_147_483_647 {
        Some(number as u32)
    } else {
        None
    }
}
