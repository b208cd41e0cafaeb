//! Numbers in decimal digits of a fixed count.

ghost use Rattle.std.specs.Prelude.{◌-◌, ◌^◌, ◌<◌, length};
ghost use Rattle.dk_paths.specs.Numbers.{ReadsNumber, SplitsNumber};

/// The greatest version of a table: a version has 63 bits.
pub const MAX_VERSION: u64 = 9_223_372_036_854_775_807;

/// The digits of a version in a name, and those of a part number.
const VERSION_DIGITS: usize = 20;

const PART_DIGITS: usize = 10;

/// The greatest part number, of 32 bits.
const MAX_PART: u64 = 4_294_967_295;

/// The version at the front of `text`, and what follows it.
pub fn split_version(text: &[u8]) -> Option<(u64, &[u8])>
    ensures { SplitsNumber 20 (2 ^ 63 - 1) text.now result }
{
    split_number(text, VERSION_DIGITS, MAX_VERSION)
}

/// The part number at the front of `text`, and what follows it.
pub fn split_part(text: &[u8]) -> Option<(u32, &[u8])>
    ensures { SplitsNumber 10 (2 ^ 32 - 1) text.now result }
{
    match split_number(text, PART_DIGITS, MAX_PART) {
        Some((number, rest)) => Some((number as u32, rest)),
        None => None,
    }
}

/// The number that all of `text` writes in decimal digits; `None` where a byte is no digit or the number is above `limit`.
fn number(text: &[u8], limit: u64) -> Option<u64>
    requires small { limit < 2 ^ 63 }
    requires fits { limit < 10 ^ length text.now }
    ensures { ReadsNumber limit text.now result }
{
    let mut value = 0u64;
    for byte in text {
        if !byte.is_ascii_digit() {
            return None;
        }
        if value > limit / 10 {
            return None;
        }
        value = value * 10 + u64::from(*byte - b'0');
    }
    if value <= limit { Some(value) } else { None }
}

/// The number in the first `count` bytes of `text`, read as by [`number`], and what follows it.
fn split_number(text: &[u8], count: usize, limit: u64) -> Option<(u64, &[u8])>
    requires small { limit < 2 ^ 63 }
    requires fits { limit < 10 ^ count }
    ensures { SplitsNumber count limit text.now result }
{
    if text.len() < count {
        return None;
    }
    let (front, rest) = text.split_at(count);
    match number(front, limit) {
        Some(value) => Some((value, rest)),
        None => None,
    }
}
