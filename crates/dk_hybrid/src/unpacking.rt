//! Values out of packed bytes.

ghost use Rattle.std.specs.Prelude.{◌≡◌, ℕ, ◌+◌, ◌-◌, ◌*◌, ◌/◌, ◌%◌, ◌^◌, ◌<◌, ◌≤◌, ◌++◌, length, vec_len, OnOk};
ghost use Rattle.dk_grammar.specs.Digits.{number_of, digits_of};

use std::alloc::AllocError;

/// The number that the bytes are, the least byte first.
pub(crate) fn number_in(bytes: &[u8]) -> u64
    requires { length bytes.now ≤ 8 }
    ensures number { result ≡ number_of 256 bytes.now }
    ensures small { result < 256 ^ length bytes.now }
{
    let mut number = 0;
    for i in (0..bytes.len()).rev() {
        number = 256 * number + u64::from(bytes[i]);
    }
    number
}

/// Adds the first `count` values that are packed in the bytes.
pub(crate) fn unpack(
    values: &mut Vec<u32>,
    bytes: &[u8],
    width: u8,
    count: usize,
) -> Result<(), AllocError>
    requires some { 0 < width }
    requires narrow { width ≤ 32 }
    requires enough { (count + 7) / 8 * width ≤ length bytes.now }
    ensures { OnOk result (values.new.items ≡ values.old.items ++ digits_of (2 ^ width) count (number_of 256 bytes.now)) }
{
    values.reserve(count)?;
    if width <= 8 {
        unpack_groups(values, bytes, width, count)
    } else {
        unpack_each(values, bytes, width, count)
    }
}

/// Values of at most eight bits: a group of eight is one number of at most 64 bits.
fn unpack_groups(
    values: &mut Vec<u32>,
    bytes: &[u8],
    width: u8,
    count: usize,
) -> Result<(), AllocError>
    requires some { 0 < width }
    requires narrow { width ≤ 8 }
    requires enough { (count + 7) / 8 * width ≤ length bytes.now }
    ensures { OnOk result (values.new.items ≡ values.old.items ++ digits_of (2 ^ width) count (number_of 256 bytes.now)) }
{
    let mut rest = bytes;
    let mut left = count;
    while left >= 8 {
        let (group, after) = rest.split_at(usize::from(width));
        values.extend_from_slice(&eight_of(number_in(group), width))?;
        rest = after;
        left -= 8;
    }
    if left == 0 {
        return Ok(());
    }
    let (group, _) = rest.split_at(usize::from(width));
    values.extend_from_slice(&eight_of(number_in(group), width)[..left])
}

/// The eight values of a group that is this number.
fn eight_of(group: u64, width: u8) -> [u32; 8]
    requires { width ≤ 8 }
    ensures { result ≡ digits_of (2 ^ width) 8 group }
{
    let mask = (1u64 << width) - 1;
    let mut values = [0; 8];
    let mut rest = group;
    for i in 0..8 {
        values[i] = (rest & mask) as u32;
        rest >>= width;
    }
    values
}

/// Values of any width, one after another. `ahead` holds the bits of bytes that are passed and
/// not given yet.
fn unpack_each(
    values: &mut Vec<u32>,
    bytes: &[u8],
    width: u8,
    count: usize,
) -> Result<(), AllocError>
    requires some { 0 < width }
    requires narrow { width ≤ 32 }
    requires enough { (count + 7) / 8 * width ≤ length bytes.now }
    ensures { OnOk result (values.new.items ≡ values.old.items ++ digits_of (2 ^ width) count (number_of 256 bytes.now)) }
{
    let mask = (1u64 << width) - 1;
    let mut ahead: u64 = 0;
    let mut bits = 0;
    let mut next = 0;
    let mut left = count;
    while left > 0 {
        while bits < width {
            ahead += u64::from(bytes[next]) << bits;
            bits += 8;
            next += 1;
        }
        values.push((ahead & mask) as u32)?;
        ahead >>= width;
        bits -= width;
        left -= 1;
    }
    Ok(())
}
