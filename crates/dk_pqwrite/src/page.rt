//! Pages (Apache Parquet, "Data Pages").

ghost use Rattle.std.specs.Prelude.{◌≡◌, ◌+◌, ◌*◌, ◌<◌, ◌≤◌, ◌^◌, IfOk, None, OnOk, Some, [], length, map, pos};
ghost use Rattle.dk_levels.specs.Borrowed.{borrowed_triple};
ghost use Rattle.dk_pqmodel.specs.Datum.{chars};
ghost use Rattle.dk_pqmodel.specs.FilePages.{IsDataV1, IsDictionary, IsPage};
ghost use Rattle.dk_pqmodel.specs.Projection.{Path};
ghost use Rattle.dk_pqmodel.specs.Shape.{chars as shape_chars};
ghost use Rattle.dk_pqwrite.specs.Adding.{AddsBytes};
ghost use Rattle.dk_pqwrite.specs.DataPages.{HoldBoth};
ghost use Rattle.dk_pqwrite.specs.FirstUses.{AreTheirs, texts_in};
ghost use Rattle.dk_pqwrite.specs.HeaderBytes.{data_numbers, page_parts};
ghost use Rattle.dk_pqwrite.specs.PlainValues.{ArePlain, plain_size};
ghost use Rattle.dk_pqwrite.specs.Writable.{IsWritableColumn};
ghost use Rattle.dk_pqwrite.specs.WrittenColumn.{leaf_column_at, leaf_of_kind, values_of_column};

use crate::column::LeafColumn;
use crate::dictionary::Dictionary;
use crate::header::{PLAIN, RLE_DICTIONARY, data_header, dictionary_header};
use crate::levels::{add_levels, definitions, repetitions};
use crate::places::add_places;
use crate::values::{add_plain, add_text};
use dk_levels::BorrowedTriple;
use std::alloc::{AllocError, Global};

/// Adds a data page of the first version with the triples, whose values are in the encoding PLAIN.
pub(crate) fn add_plain_page(
    alloc: Global,
    out: &mut Vec<u8>,
    column: LeafColumn,
    triples: &[BorrowedTriple<'_>],
) -> Result<(), AllocError>
    requires { IsWritableColumn (leaf_column_at [] column) (map borrowed_triple triples.now) }
    ensures { OnOk result ((path : Path) → AddsBytes (λ bytes. IsDataV1 (leaf_column_at path column) None bytes (map borrowed_triple triples.now))
        (133 + 10 * length triples.now + plain_size (values_of_column (map borrowed_triple triples.now))) out.old.items out.new.items) }
{
    let mut body = levels_of(alloc, column, triples)?;
    add_plain(alloc, &mut body, column.kind, triples)?;
    end_data_page(alloc, out, triples.len() as u32, PLAIN, &body)
}

/// Adds a data page of the first version with the triples of texts, each of which is given by its place in the dictionary.
pub(crate) fn add_coded_page(
    alloc: Global,
    out: &mut Vec<u8>,
    column: LeafColumn,
    dictionary: &Dictionary<'_>,
    triples: &[BorrowedTriple<'_>],
) -> Result<(), AllocError>
    requires kind { leaf_of_kind column.kind ≡ shape_chars }
    requires writable { IsWritableColumn (leaf_column_at [] column) (map borrowed_triple triples.now) }
    requires places { AreTheirs (map (λ k. k.now) dictionary.now.texts.keys) dictionary.now.places.items (texts_in (map borrowed_triple triples.now)) }
    requires distinct { length dictionary.now.texts.keys ≤ 2 ^ 26 }
    ensures { OnOk result ((path : Path) → AddsBytes (λ bytes. IsDataV1 (leaf_column_at path column) (Some (map chars (map (λ k. k.now) dictionary.now.texts.keys))) bytes (map borrowed_triple triples.now))
        (174 + 15 * length triples.now) out.old.items out.new.items) }
{
    let mut body = levels_of(alloc, column, triples)?;
    add_places(alloc, &mut body, dictionary)?;
    end_data_page(alloc, out, triples.len() as u32, RLE_DICTIONARY, &body)
}

/// Adds a dictionary page with the texts.
pub(crate) fn add_dictionary_page(
    alloc: Global,
    out: &mut Vec<u8>,
    texts: &[&str],
) -> Result<(), AllocError>
    requires few { length texts.now ≤ 2 ^ 26 }
    requires small { plain_size (map chars (map (λ k. k.now) texts.now)) ≤ 2 ^ 30 }
    ensures { OnOk result (AddsBytes (λ bytes. IsDictionary shape_chars bytes (map chars (map (λ k. k.now) texts.now)))
        (33 + plain_size (map chars (map (λ k. k.now) texts.now))) out.old.items out.new.items) }
{
    let body = texts_in_plain(alloc, texts)?;
    let header = dictionary_header(alloc, texts.len() as u32, body.len() as u32)?;
    out.extend_from_slice(&header)?;
    out.extend_from_slice(&body)?;
    Ok(())
}

/// Texts one behind another, each behind its length.
fn texts_in_plain(alloc: Global, texts: &[&str]) -> Result<Vec<u8>, AllocError>
    requires { plain_size (map chars (map (λ k. k.now) texts.now)) ≤ 2 ^ 30 }
    ensures plain { IfOk result (λ v. ArePlain shape_chars (map chars (map (λ k. k.now) texts.now)) v.items) }
    ensures size { IfOk result (λ v. length v.items ≤ plain_size (map chars (map (λ k. k.now) texts.now))) }
{
    let mut out = Vec::new(alloc);
    for text in texts {
        add_text(&mut out, text)?;
    }
    Ok(out)
}

/// A body begun: the levels of the triples.
fn levels_of(
    alloc: Global,
    column: LeafColumn,
    triples: &[BorrowedTriple<'_>],
) -> Result<Vec<u8>, AllocError>
    requires { IsWritableColumn (leaf_column_at [] column) (map borrowed_triple triples.now) }
    ensures { IfOk result (λ v. HoldBoth column (map borrowed_triple triples.now) v.items) }
{
    let mut body = Vec::new(alloc);
    if column.rep > 0 {
        let repetitions = repetitions(alloc, triples)?;
        add_levels(alloc, &mut body, column.rep, &repetitions)?;
    }
    let definitions = definitions(alloc, triples)?;
    add_levels(alloc, &mut body, column.def, &definitions)?;
    Ok(body)
}

/// Adds the header of a data page, and its body.
fn end_data_page(
    alloc: Global,
    out: &mut Vec<u8>,
    values: u32,
    encoding: u32,
    body: &[u8],
) -> Result<(), AllocError>
    requires values { values < 2 ^ 31 }
    requires encoding { encoding < 2 ^ 31 }
    requires size { length body.now < 2 ^ 31 }
    ensures { OnOk result (AddsBytes (λ bytes. IsPage (pos 0) (page_parts 0 (length body.now) (pos 5) (data_numbers values encoding)) body.now bytes)
        (45 + length body.now) out.old.items out.new.items) }
{
    let header = data_header(alloc, values, encoding, body.len() as u32)?;
    out.extend_from_slice(&header)?;
    out.extend_from_slice(body)
}
