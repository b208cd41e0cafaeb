//! Values in the encoding PLAIN (Apache Parquet, "Plain").

ghost use Rattle.std.specs.Prelude.{◌≡◌, ◌≢◌, ◌∷◌, [], ◌+◌, ◌<◌, ◌^◌, All, IfOk, IfSome, IsTrue, OnOk, length, map, option_and_then, option_to_list};
ghost use Rattle.dk_levels.specs.Borrowed.{borrowed_triple, borrowed_value};
ghost use Rattle.dk_pqmodel.specs.Datum.{chars, int};
ghost use Rattle.dk_pqmodel.specs.FilePages.{InPlain};
ghost use Rattle.dk_pqmodel.specs.Fits.{fits_leaf};
ghost use Rattle.dk_pqmodel.specs.Shape.{chars as shape_chars, flag as shape_flag};
ghost use Rattle.dk_pqmodel.specs.Weight.{text_length};
ghost use Rattle.dk_pqwrite.specs.Adding.{AddsBytes};
ghost use Rattle.dk_pqwrite.specs.PlainValues.{ArePlain, FitsEntry, flag_value, flags_in, plain_size};
ghost use Rattle.dk_pqwrite.specs.WrittenColumn.{leaf_of_kind, values_of_column};

use crate::column::LeafKind;
use crate::flags::add_flags;
use crate::levels::add_sized;
use dk_levels::{BorrowedTriple, BorrowedValue};
use std::alloc::{AllocError, Global};

/// Adds the values of triples, one behind another, and flags bit by bit.
pub(crate) fn add_plain(
    alloc: Global,
    out: &mut Vec<u8>,
    kind: LeafKind,
    triples: &[BorrowedTriple<'_>],
) -> Result<(), AllocError>
    requires { All (FitsEntry (leaf_of_kind kind)) (map borrowed_triple triples.now) }
    ensures { OnOk result (AddsBytes (InPlain (leaf_of_kind kind) (values_of_column (map borrowed_triple triples.now))) (plain_size (values_of_column (map borrowed_triple triples.now))) out.old.items out.new.items) }
{
    match kind {
        LeafKind::Flag => {
            let flags = flags_in(alloc, triples)?;
            add_flags(out, &flags)
        }
        LeafKind::Int32 | LeafKind::Int64 | LeafKind::Chars => add_values(out, kind, triples),
    }
}

fn flags_in(alloc: Global, triples: &[BorrowedTriple<'_>]) -> Result<Vec<bool>, AllocError>
    ensures { IfOk result (λ v. v.items ≡ flags_in (map borrowed_triple triples.now)) }
{
    let mut flags = Vec::new(alloc);
    for triple in triples {
        if let Some(flag) = flag_of(triple) {
            flags.push(flag)?;
        }
    }
    Ok(flags)
}

/// The flag that an entry has, if it has one.
fn flag_of(triple: &BorrowedTriple<'_>) -> Option<bool>
    ensures { result ≡ option_and_then flag_value (borrowed_triple triple.now).value }
{
    match &triple.value {
        BorrowedValue::Flag(flag) => Some(*flag),
        _ => None,
    }
}

/// Adds numbers or texts.
fn add_values(
    out: &mut Vec<u8>,
    kind: LeafKind,
    triples: &[BorrowedTriple<'_>],
) -> Result<(), AllocError>
    requires kind { leaf_of_kind kind ≢ shape_flag }
    requires fit { All (FitsEntry (leaf_of_kind kind)) (map borrowed_triple triples.now) }
    ensures { OnOk result (AddsBytes (ArePlain (leaf_of_kind kind) (values_of_column (map borrowed_triple triples.now))) (plain_size (values_of_column (map borrowed_triple triples.now))) out.old.items out.new.items) }
{
    for triple in triples {
        add_value(out, kind, &triple.value)?;
    }
    Ok(())
}

/// Adds a number or a text, if there is one.
fn add_value(out: &mut Vec<u8>, kind: LeafKind, value: &BorrowedValue<'_>) -> Result<(), AllocError>
    requires kind { leaf_of_kind kind ≢ shape_flag }
    requires fits { IfSome (borrowed_value value.now) (λ v. IsTrue (fits_leaf v (leaf_of_kind kind)) × (text_length v < 2 ^ 32)) }
    ensures { OnOk result (AddsBytes (ArePlain (leaf_of_kind kind) (option_to_list (borrowed_value value.now))) (plain_size (option_to_list (borrowed_value value.now))) out.old.items out.new.items) }
{
    match value {
        BorrowedValue::Null => Ok(()),
        BorrowedValue::Flag(_) => unreachable!(),
        BorrowedValue::Int(number) => add_number(out, kind, *number),
        BorrowedValue::Chars(text) => add_text(out, text),
    }
}

fn add_number(out: &mut Vec<u8>, kind: LeafKind, number: i64) -> Result<(), AllocError>
    requires { IsTrue (fits_leaf (int number) (leaf_of_kind kind)) }
    ensures { OnOk result (AddsBytes (ArePlain (leaf_of_kind kind) (int number ∷ [])) 8 out.old.items out.new.items) }
{
    match kind {
        LeafKind::Int32 => {
            let short = number as i32;
            out.extend_from_slice(&short.cast_unsigned().to_le_bytes())?;
        }
        LeafKind::Int64 => {
            out.extend_from_slice(&number.cast_unsigned().to_le_bytes())?;
        }
        LeafKind::Flag | LeafKind::Chars => unreachable!(),
    }
    Ok(())
}

/// Adds a text behind its length.
pub(crate) fn add_text(out: &mut Vec<u8>, text: &str) -> Result<(), AllocError>
    requires { length text.now < 2 ^ 32 }
    ensures { OnOk result (AddsBytes (ArePlain shape_chars (chars text.now ∷ [])) (8 + length text.now) out.old.items out.new.items) }
{
    add_sized(out, text.as_bytes())
}
