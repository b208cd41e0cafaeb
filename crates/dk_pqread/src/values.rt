//! The values of a page, by their encoding.

ghost use Rattle.std.specs.Prelude.{◌≡◌, IfOk, length, map, option_map, slice_get};
ghost use Rattle.dk_levels.specs.Answers.{GivesMeant};
ghost use Rattle.dk_pqmodel.specs.ColumnView.{value_of};
ghost use Rattle.dk_pqmodel.specs.FilePages.{FromDictionary, HoldValues, InPlain, InRuns};
ghost use Rattle.dk_pqmodel.specs.Footer.{each_of};
ghost use Rattle.dk_pqread.specs.ColumnView.{column_at};
ghost use Rattle.dk_pqread.specs.LeafView.{leaf_of};
ghost use Rattle.dk_pqread.specs.Meanings.{Finds};
ghost use Rattle.dk_pqread.specs.Values.{flag_at};

use crate::bytes::sized;
use crate::column::Column;
use crate::leaf::Leaf;
use crate::plain::{plain_flags, plain_values};
use crate::runs::read_runs;
use crate::scan::{PLAIN, PLAIN_DICTIONARY, RLE, RLE_DICTIONARY};
use dk_pqmodel::{PqFault, Value};
use std::alloc::{AllocError, Global};

/// So many values, in the encoding of this code.
pub(crate) fn read_values(
    alloc: Global,
    column: &Column,
    dictionary: Option<&[Value]>,
    code: i32,
    bytes: &[u8],
    count: usize,
) -> Result<Vec<Value>, PqFault>
    ensures { Finds (λ v. map value_of v.items) result
        (λ values. (length values ≡ count) × HoldValues (column_at column.now) (option_map (λ d. map value_of d.now) dictionary.entry) code values bytes.now) }
{
    match code {
        PLAIN => read_plain(alloc, column.kind, bytes, count),
        RLE => read_flag_runs(alloc, column.kind, bytes, count),
        PLAIN_DICTIONARY | RLE_DICTIONARY => {
            read_indices(alloc, column.kind, dictionary, bytes, count)
        }
        _ => Err(PqFault::Broken),
    }
}

/// PLAIN. What bytes stand behind the values is free.
fn read_plain(alloc: Global, kind: Leaf, bytes: &[u8], count: usize) -> Result<Vec<Value>, PqFault>
    ensures { Finds (λ v. map value_of v.items) result (λ values. (length values ≡ count) × InPlain (leaf_of kind) values bytes.now) }
{
    match kind {
        Leaf::Flag => plain_flags(alloc, bytes, count),
        Leaf::Int32 | Leaf::Int64 | Leaf::Chars => {
            match plain_values(alloc, kind, bytes, count) {
                Ok((values, _rest)) => Ok(values),
                Err(fault) => Err(fault),
            }
        }
    }
}

/// RLE, for flags alone: runs behind their length.
fn read_flag_runs(
    alloc: Global,
    kind: Leaf,
    bytes: &[u8],
    count: usize,
) -> Result<Vec<Value>, PqFault>
    ensures { Finds (λ v. map value_of v.items) result (λ values. (length values ≡ count) × InRuns (leaf_of kind) values bytes.now) }
{
    if kind != Leaf::Flag {
        return Err(PqFault::Broken);
    }
    let Some((runs, _over)) = sized(bytes) else {
        return Err(PqFault::Broken);
    };
    let bits = read_runs(alloc, runs, 1, count)?;
    flags_of(alloc, &bits)
}

fn flags_of(alloc: Global, bits: &[u32]) -> Result<Vec<Value>, PqFault>
    ensures { GivesMeant (λ v. map value_of v.items) result (each_of flag_at bits.now) }
{
    let mut flags = Vec::with_capacity(alloc, bits.len())?;
    for bit in bits {
        if *bit > 1 {
            return Err(PqFault::Broken);
        }
        flags.push(Value::Flag(*bit == 1))?;
    }
    Ok(flags)
}

/// PLAIN_DICTIONARY and RLE_DICTIONARY: a byte with the width, and runs of places in the dictionary. Where no value is meant, the byte
/// may be left out.
fn read_indices(
    alloc: Global,
    kind: Leaf,
    dictionary: Option<&[Value]>,
    bytes: &[u8],
    count: usize,
) -> Result<Vec<Value>, PqFault>
    ensures { Finds (λ v. map value_of v.items) result
        (λ values. (length values ≡ count) × FromDictionary (leaf_of kind) (option_map (λ d. map value_of d.now) dictionary.entry) values bytes.now) }
{
    let Some(entries) = dictionary else {
        return Err(PqFault::Broken);
    };
    if kind == Leaf::Flag {
        return Err(PqFault::Broken);
    }
    let Some((width, runs)) = bytes.split_first() else {
        if count == 0 {
            return Ok(Vec::new(alloc));
        }
        return Err(PqFault::Broken);
    };
    if *width > 32 {
        return Err(PqFault::Broken);
    }
    let indices = read_runs(alloc, runs, *width, count)?;
    pick(alloc, entries, &indices)
}

/// The entries at the places.
fn pick(alloc: Global, entries: &[Value], indices: &[u32]) -> Result<Vec<Value>, PqFault>
    ensures { GivesMeant (λ v. map value_of v.items) result (each_of (λ index. slice_get (map value_of entries.now) index) indices.now) }
{
    let mut values = Vec::with_capacity(alloc, indices.len())?;
    for index in indices {
        let Some(entry) = entries.get(*index as usize) else {
            return Err(PqFault::Broken);
        };
        values.push(copy_value(entry)?)?;
    }
    Ok(values)
}

fn copy_value(value: &Value) -> Result<Value, AllocError>
    ensures { IfOk result (λ v. value_of v ≡ value_of value.now) }
{
    match value {
        Value::Flag(flag) => Ok(Value::Flag(*flag)),
        Value::Int(number) => Ok(Value::Int(*number)),
        Value::Chars(text) => Ok(Value::Chars(text.clone()?)),
    }
}
