//! Values in the encoding PLAIN (Apache Parquet, "Plain").

ghost use Rattle.std.specs.Prelude.{◌≡◌, ◌*◌, ◌++◌, ◌≤◌, OnOk, length, map, take};
ghost use Rattle.dk_grammar.specs.Digits.{digits_of};
ghost use Rattle.dk_levels.specs.Answers.{GivesMeant};
ghost use Rattle.dk_pqmodel.specs.ColumnView.{value_of};
ghost use Rattle.dk_pqmodel.specs.Shape.{chars as shape_chars};
ghost use Rattle.dk_pqread.specs.LeafView.{leaf_of};
ghost use Rattle.dk_pqread.specs.Values.{flag_of, flags_at, plain_at, plains_at};

use crate::bytes::{cut, long_number, number, sized};
use crate::leaf::Leaf;
use dk_pqmodel::{PqFault, Value};
use std::alloc::{AllocError, Global};

/// So many numbers or texts, and the bytes behind them. `Broken` comes exactly where they don't stand there, and for flags. What grows
/// is the values that stand in the bytes.
pub(crate) fn plain_values<'a>(
    alloc: Global,
    kind: Leaf,
    bytes: &'a [u8],
    count: usize,
) -> Result<(Vec<Value>, &'a [u8]), PqFault>
    ensures { GivesMeant (λ x. (map value_of x.0.items, x.1.now)) result (plains_at (leaf_of kind) count bytes.now) }
{
    let mut values = Vec::with_capacity(alloc, room(bytes, count))?;
    let mut rest = bytes;
    for _ in 0..count {
        let (value, behind) = plain_value(alloc, kind, rest)?;
        values.push(value)?;
        rest = behind;
    }
    Ok((values, rest))
}

/// For how many values room is made: a number or a text has four bytes at least, so for no more than the bytes can hold, whatever
/// count is claimed.
fn room(bytes: &[u8], count: usize) -> usize
    ensures claimed { result ≤ count }
    ensures held { 4 * result ≤ length bytes.now }
{
    count.min(bytes.len() / 4)
}

/// The number or text at the front, and the bytes behind it.
fn plain_value<'a>(alloc: Global, kind: Leaf, bytes: &'a [u8]) -> Result<(Value, &'a [u8]), PqFault>
    ensures { GivesMeant (λ x. (value_of x.0, x.1.now)) result (plain_at (leaf_of kind) bytes.now) }
{
    match kind {
        Leaf::Flag => Err(PqFault::Broken),
        Leaf::Int32 => match cut(4, bytes) {
            Some((front, rest)) => {
                let value = i64::from(number(front).cast_signed());
                Ok((Value::Int(value), rest))
            }
            None => Err(PqFault::Broken),
        },
        Leaf::Int64 => match cut(8, bytes) {
            Some((front, rest)) => {
                let value = long_number(front).cast_signed();
                Ok((Value::Int(value), rest))
            }
            None => Err(PqFault::Broken),
        },
        Leaf::Chars => plain_text(alloc, bytes),
    }
}

fn plain_text<'a>(alloc: Global, bytes: &'a [u8]) -> Result<(Value, &'a [u8]), PqFault>
    ensures { GivesMeant (λ x. (value_of x.0, x.1.now)) result (plain_at shape_chars bytes.now) }
{
    let Some((front, rest)) = sized(bytes) else {
        return Err(PqFault::Broken);
    };
    match std::str::from_utf8(front) {
        Ok(text) => Ok((Value::Chars(String::from_str(alloc, text)?), rest)),
        Err(_) => Err(PqFault::Broken),
    }
}

/// So many flags, bit by bit.
pub(crate) fn plain_flags(alloc: Global, bytes: &[u8], count: usize) -> Result<Vec<Value>, PqFault>
    ensures { GivesMeant (λ v. map value_of v.items) result (flags_at count bytes.now) }
{
    if count > bytes.len().saturating_mul(8) {
        return Err(PqFault::Broken);
    }
    let mut flags = Vec::with_capacity(alloc, count)?;
    for byte in bytes {
        let missing = count - flags.len();
        push_bits(&mut flags, *byte, missing)?;
    }
    Ok(flags)
}

/// Adds the flags of a byte, the least bit first, and at most so many.
fn push_bits(flags: &mut Vec<Value>, byte: u8, most: usize) -> Result<(), AllocError>
    ensures { OnOk result (map value_of flags.new.items ≡ map value_of flags.old.items ++ map flag_of (take most (digits_of 2 8 byte))) }
{
    let mut bits = byte;
    for _ in 0..most.min(8) {
        flags.push(Value::Flag(bits % 2 == 1))?;
        bits /= 2;
    }
    Ok(())
}
