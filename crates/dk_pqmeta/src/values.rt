//! Single values: names, paths and whole numbers.

ghost use Rattle.std.specs.Prelude.{◌≡◌, pos, string_bytes, map};
ghost use Rattle.dk_grammar.specs.Structs.{number_meaning};
ghost use Rattle.dk_grammar.specs.Lists.{is_held, may_hold};
ghost use Rattle.dk_pqmeta.specs.Found.{FindsFront};
ghost use Rattle.dk_pqmeta.specs.Readings.{text_at, path_at};

use crate::fault::MetaFault;
use dk_thrift::{ListHead, Reader};
use std::alloc::Global;

/// The kinds of values that are read.
pub(crate) const BINARY: u8 = 8;

pub(crate) const LIST: u8 = 9;

pub(crate) const STRUCT: u8 = 12;

/// A text.
pub(crate) fn read_name(alloc: Global, reader: &mut Reader<'_>) -> Result<String, MetaFault>
    ensures { FindsFront string_bytes reader.old reader.new result (text_at reader.old.rest) }
{
    let bytes = reader.binary()?;
    match str::from_utf8(bytes) {
        Ok(name) => Ok(String::from_str(alloc, name)?),
        Err(_) => Err(MetaFault::Broken),
    }
}

/// The names of a path.
pub(crate) fn read_path(alloc: Global, reader: &mut Reader<'_>) -> Result<Vec<String>, MetaFault>
    ensures { FindsFront (λ v. map string_bytes v.items) reader.old reader.new result (path_at reader.old.rest) }
{
    let head = reader.list()?;
    if !may_hold(BINARY, head) {
        return Err(MetaFault::Broken);
    }
    let mut names = Vec::new(alloc);
    // Each name takes a byte at least, so a claimed count alone grows nothing.
    for _ in 0..head.count {
        names.push(read_name(alloc, reader)?)?;
    }
    Ok(names)
}

/// The value of a field, where it is a whole number; all else is passed over.
pub(crate) fn read_number(reader: &mut Reader<'_>, kind: u8) -> Result<Option<i64>, MetaFault>
    ensures { FindsFront (λ z. z) reader.old reader.new result (number_meaning (pos 0) kind reader.old.rest) }
{
    Ok(reader.number(kind)?)
}

/// Whether a list may have elements of this kind. Where it has none, its kind doesn't matter.
pub(crate) fn may_hold(kind: u8, head: ListHead) -> bool
    ensures { result ≡ may_hold kind head.count head.kind }
{
    head.count == 0 || head.kind == kind
}

/// Whether a field of this id and kind is the one that is wanted, with a value of the wanted kind.
pub(crate) fn is_held(wanted: i16, of: u8, id: i16, kind: u8) -> bool
    ensures { result ≡ is_held wanted of id kind }
{
    id == wanted && kind == of
}
