//! Packed bytes out of values.

ghost use Rattle.std.specs.Prelude.{◌≡◌, ℕ, ◌+◌, ◌-◌, ◌*◌, ◌^◌, ◌<◌, ◌≤◌, ◌++◌, length, All, OnOk};
ghost use Rattle.dk_grammar.specs.Digits.{number_of, digits_of};

use std::alloc::AllocError;

/// Adds so many bytes that the values are packed in, each in `width` bits. Where the values end
/// first, the bits behind them are 0.
pub(crate) fn pack(
    out: &mut Vec<u8>,
    values: &[u32],
    width: u8,
    count: usize,
) -> Result<(), AllocError>
    requires some { 0 < count → 0 < width }
    requires narrow { width ≤ 32 }
    requires fit { All (λ value. value < 2 ^ width) values.now }
    ensures { OnOk result (out.new.items ≡ out.old.items ++ digits_of 256 count (number_of (2 ^ width) values.now)) }
{
    let mut ahead: u64 = 0;
    let mut bits = 0;
    let mut rest = values;
    let mut left = count;
    while left > 0 {
        while bits < 8 {
            let (value, after) = next_value(rest);
            ahead += u64::from(value) << bits;
            bits += width;
            rest = after;
        }
        out.push((ahead & 0xFF) as u8)?;
        ahead >>= 8;
        bits -= 8;
        left -= 1;
    }
    Ok(())
}

/// The next value and those behind it, and 0 where there are none.
fn next_value(values: &[u32]) -> (u32, &[u32])
    ensures number { (base : ℕ) → number_of base values.now ≡ result.0 + base * number_of base result.1.now }
    ensures fit { (most : ℕ) → 0 < most → All (λ value. value < most) values.now → (result.0 < most) × All (λ value. value < most) result.1.now }
{
    match values.split_first() {
        Some((value, after)) => (*value, after),
        None => (0, values),
    }
}
