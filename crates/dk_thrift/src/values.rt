//! Headers and bytes at the front of bytes. Each function answers what stands there and the bytes behind it.

ghost use Rattle.std.specs.Prelude.{◌≡◌};
ghost use Rattle.dk_grammar.specs.Thrift.{binary_at, bytes_at, field_at, is_kind, list_at};
ghost use Rattle.dk_thrift.specs.GivesFront.{GivesFront};

use crate::numbers::{count, id, number};
use dk_grammar::thrift::{Field, Flaw, ListHead};

/// The greatest number of a kind; 0 is none.
const MAX_KIND: u8 = 12;

/// A list's header has its count where that is below this.
const SHORT_COUNT: u8 = 15;

/// Whether a number is that of a kind.
pub fn is_kind(kind: u8) -> bool
    ensures { result ≡ is_kind kind }
{
    1 <= kind && kind <= MAX_KIND
}

/// The header of a field behind the field `last`, or the end of the struct.
pub fn field(last: i16, bytes: &[u8]) -> Result<(Field, &[u8]), Flaw>
    ensures { GivesFront (λ x. (x.0, x.1.now)) result (field_at last bytes.now) }
{
    let Some((head, rest)) = bytes.split_first() else {
        return Err(Flaw::Short);
    };
    if *head == 0 {
        return Ok((Field::End, rest));
    }
    let step = *head / 16;
    let kind = *head % 16;
    if !is_kind(kind) {
        return Err(Flaw::BadType { left: bytes.len() });
    }
    if step == 0 {
        let (id, rest) = id(rest)?;
        return Ok((Field::Next { id, kind }, rest));
    }
    match last.checked_add(i16::from(step)) {
        Some(id) => Ok((Field::Next { id, kind }, rest)),
        None => Err(Flaw::BadType { left: bytes.len() }),
    }
}

/// The header of a list or a set. The byte 0 is one of no elements, which need no kind.
pub fn list(bytes: &[u8]) -> Result<(ListHead, &[u8]), Flaw>
    ensures { GivesFront (λ x. (x.0, x.1.now)) result (list_at bytes.now) }
{
    let Some((head, rest)) = bytes.split_first() else {
        return Err(Flaw::Short);
    };
    let short = *head / 16;
    let kind = *head % 16;
    if !is_kind(kind) && *head != 0 {
        return Err(Flaw::BadType { left: bytes.len() });
    }
    if short < SHORT_COUNT {
        return Ok((
            ListHead {
                count: u32::from(short),
                kind,
            },
            rest,
        ));
    }
    let (count, rest) = count(rest)?;
    Ok((ListHead { count, kind }, rest))
}

/// The first `size` bytes.
pub fn take(size: u64, bytes: &[u8]) -> Result<(&[u8], &[u8]), Flaw>
    ensures { GivesFront (λ x. (x.0.now, x.1.now)) result (bytes_at size bytes.now) }
{
    if size > bytes.len() as u64 {
        return Err(Flaw::Short);
    }
    Ok(bytes.split_at(size as usize))
}

/// A length, and as many bytes.
pub fn binary(bytes: &[u8]) -> Result<(&[u8], &[u8]), Flaw>
    ensures { GivesFront (λ x. (x.0.now, x.1.now)) result (binary_at bytes.now) }
{
    let (size, rest) = number(bytes)?;
    take(size, rest)
}
