//! Numbers at the front of bytes. Each function answers the number and the bytes behind it.

ghost use Rattle.dk_grammar.specs.Thrift.{count_at, id_at, number_at, whole_at};
ghost use Rattle.dk_grammar.specs.Zigzag.{zigzag_of};
ghost use Rattle.std.specs.Prelude.{◌≡◌, nat_lt, position};
ghost use Rattle.dk_thrift.specs.GivesFront.{GivesFront};
ghost use Rattle.dk_thrift.specs.Groups.{groups_value, in_64_bits};

use dk_grammar::thrift::Flaw;

/// A varint of at most 64 bits (Thrift compact protocol, "Integer encoding").
pub fn number(bytes: &[u8]) -> Result<(u64, &[u8]), Flaw>
    ensures { GivesFront (λ x. (x.0, x.1.now)) result (number_at bytes.now) }
{
    let Some(last) = last_group(bytes) else {
        return Err(Flaw::Short);
    };
    let (groups, rest) = bytes.split_at(last + 1);
    match value_of(groups) {
        Some(value) => Ok((value, rest)),
        None => Err(Flaw::BadType { left: bytes.len() }),
    }
}

/// The place of a varint's last byte.
fn last_group(bytes: &[u8]) -> Option<usize>
    ensures { result ≡ position (λ byte. nat_lt byte 128) bytes.now }
{
    bytes.iter().position(|byte| *byte < 128)
}

/// The number of a varint's bytes; none where it has more than 64 bits.
fn value_of(bytes: &[u8]) -> Option<u64>
    ensures { result ≡ in_64_bits (groups_value bytes.now) }
{
    let mut value = 0u64;
    for place in (0..bytes.len()).rev() {
        if value > u64::MAX / 128 {
            return None;
        }
        value = 128 * value + u64::from(bytes[place] % 128);
    }
    Some(value)
}

/// A zigzag varint.
pub fn whole(bytes: &[u8]) -> Result<(i64, &[u8]), Flaw>
    ensures { GivesFront (λ x. (x.0, x.1.now)) result (whole_at bytes.now) }
{
    let (value, rest) = number(bytes)?;
    Ok((signed(value), rest))
}

/// The signed number that a zigzag number stands for.
fn signed(number: u64) -> i64
    ensures { result ≡ zigzag_of number }
{
    let half = (number / 2) as i64;
    if number % 2 == 0 { half } else { -1 - half }
}

/// The id of a field in full.
pub fn id(bytes: &[u8]) -> Result<(i16, &[u8]), Flaw>
    ensures { GivesFront (λ x. (x.0, x.1.now)) result (id_at bytes.now) }
{
    let (value, rest) = whole(bytes)?;
    if value < -32768 || value > 32767 {
        return Err(Flaw::BadType { left: bytes.len() });
    }
    Ok((value as i16, rest))
}

/// The count of a list, a set or a map.
pub fn count(bytes: &[u8]) -> Result<(u32, &[u8]), Flaw>
    ensures { GivesFront (λ x. (x.0, x.1.now)) result (count_at bytes.now) }
{
    let (value, rest) = number(bytes)?;
    match u32::try_from(value) {
        Ok(count) => Ok((count, rest)),
        Err(_) => Err(Flaw::BadType { left: bytes.len() }),
    }
}
