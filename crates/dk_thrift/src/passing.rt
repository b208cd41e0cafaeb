//! Values that are passed over. Each function answers the bytes behind the value.
//!
//! Each value of a list or a map takes a byte at least, and so does each field, so a claimed count costs nothing that isn't there.

ghost use Rattle.std.specs.Prelude.{◌≡◌, Err};
ghost use Rattle.dk_grammar.specs.Passed.{each, element_passed, entry_passed, kind_numbered, list_passed, map_passed, passed_at, struct_passed, too_deep, value_passed};
ghost use Rattle.dk_thrift.specs.GivesFront.{GivesFront};

use crate::numbers::{count, number};
use crate::values::{binary, field, is_kind, list, take};
use dk_grammar::thrift::{Field, Flaw, Kind};

/// The most levels of structs and containers in a value that is passed over.
const MAX_LEVELS: u8 = 32;

/// The value of a field whose kind has this number.
pub fn pass(kind: u8, bytes: &[u8]) -> Result<&[u8], Flaw>
    ensures { GivesFront (λ rest. rest.now) result (passed_at kind bytes.now) }
{
    if !is_kind(kind) {
        return Err(Flaw::BadType { left: bytes.len() });
    }
    pass_value(kind_of(kind), bytes, MAX_LEVELS)
}

fn kind_of(kind: u8) -> Kind
    ensures { result ≡ kind_numbered kind }
{
    match kind {
        0..=2 => Kind::Flag,
        3 => Kind::Byte,
        4..=6 => Kind::Whole,
        7 => Kind::Double,
        8 => Kind::Binary,
        9..=10 => Kind::List,
        11 => Kind::Map,
        _ => Kind::Struct,
    }
}

/// The value of a field: a flag stands in the header.
#[cycle(passing)]
fn pass_value(kind: Kind, bytes: &[u8], levels: u8) -> Result<&[u8], Flaw>
    ensures { GivesFront (λ rest. rest.now) result (value_passed (element_passed levels) kind bytes.now) }
{
    match kind {
        Kind::Flag => Ok(bytes),
        _ => pass_element(kind, bytes, levels),
    }
}

/// An element of a list or a map, in which at most `levels` structs and containers may lie inside one another.
#[cycle(passing)]
#[tactic(auto, using(crate::proofs::Passes::list_below, crate::proofs::Passes::map_below, crate::proofs::Passes::struct_below))]
fn pass_element(kind: Kind, bytes: &[u8], levels: u8) -> Result<&[u8], Flaw>
    ensures { GivesFront (λ rest. rest.now) result (element_passed levels kind bytes.now) }
{
    match kind {
        Kind::Flag | Kind::Byte => {
            let (_, rest) = take(1, bytes)?;
            Ok(rest)
        }
        Kind::Whole => {
            let (_, rest) = number(bytes)?;
            Ok(rest)
        }
        Kind::Double => {
            let (_, rest) = take(8, bytes)?;
            Ok(rest)
        }
        Kind::Binary => {
            let (_, rest) = binary(bytes)?;
            Ok(rest)
        }
        _ if levels == 0 => Err(too_deep(bytes)),
        Kind::List => pass_list(bytes, levels - 1),
        Kind::Map => pass_map(bytes, levels - 1),
        Kind::Struct => pass_struct(bytes, levels - 1),
    }
}

/// The elements of a list or a set.
#[cycle(passing)]
fn pass_list(bytes: &[u8], levels: u8) -> Result<&[u8], Flaw>
    ensures { GivesFront (λ rest. rest.now) result (list_passed (element_passed levels) bytes.now) }
{
    let (head, rest) = list(bytes)?;
    pass_each(kind_of(head.kind), head.count, rest, levels)
}

/// So many elements.
#[cycle(passing)]
fn pass_each(kind: Kind, count: u32, bytes: &[u8], levels: u8) -> Result<&[u8], Flaw>
    ensures { GivesFront (λ rest. rest.now) result (each (element_passed levels kind) count bytes.now) }
{
    let mut rest = bytes;
    for _ in 0..count {
        rest = pass_element(kind, rest, levels)?;
    }
    Ok(rest)
}

/// A map: its count and, where that isn't 0, the kinds of keys and values, and the entries.
#[cycle(passing)]
fn pass_map(bytes: &[u8], levels: u8) -> Result<&[u8], Flaw>
    ensures { GivesFront (λ rest. rest.now) result (map_passed (element_passed levels) bytes.now) }
{
    let (count, rest) = count(bytes)?;
    if count == 0 {
        return Ok(rest);
    }
    let Some((kinds, entries)) = rest.split_first() else {
        return Err(Flaw::Short);
    };
    let key = *kinds / 16;
    let value = *kinds % 16;
    if is_kind(key) && is_kind(value) {
        pass_entries(kind_of(key), kind_of(value), count, entries, levels)
    } else {
        Err(Flaw::BadType { left: rest.len() })
    }
}

/// So many entries, each a key and a value.
#[cycle(passing)]
fn pass_entries(key: Kind, value: Kind, count: u32, bytes: &[u8], levels: u8) -> Result<&[u8], Flaw>
    ensures { GivesFront (λ rest. rest.now) result (each (entry_passed (element_passed levels) key value) count bytes.now) }
{
    let mut rest = bytes;
    for _ in 0..count {
        let behind_key = pass_element(key, rest, levels)?;
        rest = pass_element(value, behind_key, levels)?;
    }
    Ok(rest)
}

/// The fields of a struct, up to its end.
#[cycle(passing)]
fn pass_struct(bytes: &[u8], levels: u8) -> Result<&[u8], Flaw>
    ensures { GivesFront (λ rest. rest.now) result (struct_passed (element_passed levels) bytes.now) }
{
    let mut rest = bytes;
    let mut last = 0;
    // Each field takes a byte at least.
    for _ in 0..bytes.len() {
        let (field, behind) = field(last, rest)?;
        match field {
            Field::End => return Ok(behind),
            Field::Next { id, kind } => {
                rest = pass_value(kind_of(kind), behind, levels)?;
                last = id;
            }
        }
    }
    Err(Flaw::Short)
}

/// A struct or container would begin too deep; where the bytes end there, they are too short.
fn too_deep(bytes: &[u8]) -> Flaw
    ensures { too_deep bytes.now ≡ Err result }
{
    if bytes.is_empty() {
        Flaw::Short
    } else {
        Flaw::TooDeep { left: bytes.len() }
    }
}
