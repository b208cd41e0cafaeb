//! Headers of pages (Apache Parquet, parquet.thrift, PageHeader).

ghost use Rattle.std.specs.Prelude.{◌≡◌, ◌∷◌, [], ◌++◌, ◌≤◌, ◌<◌, ◌^◌, IfOk, OnOk, length, pos};
ghost use Rattle.dk_grammar.specs.Spelling.{end_bytes};
ghost use Rattle.dk_grammar.specs.PageHeaders.{SpellsHeader};
ghost use Rattle.dk_thrift.specs.Writing.{IsOpen, with_end};
ghost use Rattle.dk_pqwrite.specs.HeaderBytes.{begun_bytes, data_numbers, dictionary_numbers, page_parts, with_number_field};

use crate::fields::{I32, STRUCT};
use dk_thrift::Writer;
use std::alloc::{AllocError, Global};

/// Types of pages, each with the id of its inner header.
const DATA_PAGE: u32 = 0;

const DATA_HEADER: i16 = 5;

const DICTIONARY_PAGE: u32 = 2;

const DICTIONARY_HEADER: i16 = 7;

/// Encodings (Apache Parquet, "Encodings").
pub(crate) const PLAIN: u32 = 0;

pub(crate) const RLE: u32 = 3;

pub(crate) const RLE_DICTIONARY: u32 = 8;

/// The header of a data page of the first version, with so many values in this encoding and a body of so many bytes. Its levels are
/// in runs.
pub(crate) fn data_header(
    alloc: Global,
    values: u32,
    encoding: u32,
    size: u32,
) -> Result<Vec<u8>, AllocError>
    requires values { values < 2 ^ 31 }
    requires encoding { encoding < 2 ^ 31 }
    requires size { size < 2 ^ 31 }
    ensures spelled { IfOk result (λ v. SpellsHeader v.items (page_parts 0 size (pos 5) (data_numbers values encoding))) }
    ensures size { IfOk result (λ v. length v.items ≤ 45) }
{
    let mut writer = begin_page(alloc, DATA_PAGE, size, DATA_HEADER)?;
    add_number(&mut writer, 1, values)?;
    add_number(&mut writer, 2, encoding)?;
    add_number(&mut writer, 3, RLE)?;
    add_number(&mut writer, 4, RLE)?;
    end_page(writer)
}

/// The header of a dictionary page with so many entries in PLAIN, and a body of so many bytes.
pub(crate) fn dictionary_header(
    alloc: Global,
    entries: u32,
    size: u32,
) -> Result<Vec<u8>, AllocError>
    requires entries { entries < 2 ^ 31 }
    requires size { size < 2 ^ 31 }
    ensures spelled { IfOk result (λ v. SpellsHeader v.items (page_parts 2 size (pos 7) (dictionary_numbers entries))) }
    ensures size { IfOk result (λ v. length v.items ≤ 33) }
{
    let mut writer = begin_page(alloc, DICTIONARY_PAGE, size, DICTIONARY_HEADER)?;
    add_number(&mut writer, 1, entries)?;
    add_number(&mut writer, 2, PLAIN)?;
    end_page(writer)
}

/// A writer behind a header's own fields, at the start of its inner header.
fn begin_page(alloc: Global, page_type: u32, size: u32, inner: i16) -> Result<Writer, AllocError>
    ensures { IfOk result (λ w. w ≡ record { bytes = begun_bytes (pos page_type) size inner; structs = pos 0 ∷ inner ∷ [] }) }
{
    let mut writer = Writer::new(alloc);
    add_number(&mut writer, 1, page_type)?;
    add_number(&mut writer, 2, size)?;
    add_number(&mut writer, 3, size)?;
    writer.field(inner, STRUCT)?;
    writer.enter()?;
    Ok(writer)
}

/// The bytes, once the inner header and the header are ended.
fn end_page(writer: Writer) -> Result<Vec<u8>, AllocError>
    requires inner { IsOpen writer }
    requires outer { IsOpen (with_end writer) }
    ensures { IfOk result (λ v. v.items ≡ writer.bytes ++ (end_bytes ++ end_bytes)) }
{
    let mut writer = writer;
    writer.end()?;
    writer.end()?;
    Ok(writer.finish())
}

/// A number under its id.
fn add_number(writer: &mut Writer, id: i16, value: u32) -> Result<(), AllocError>
    requires { IsOpen writer.old }
    ensures { OnOk result (writer.new ≡ with_number_field id (pos value) writer.old) }
{
    writer.field(id, I32)?;
    writer.whole(i64::from(value))
}
