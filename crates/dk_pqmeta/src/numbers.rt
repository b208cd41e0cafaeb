//! Numbers in their ranges.

ghost use Rattle.std.specs.Prelude.{◌≡◌, option_and_then};
ghost use Rattle.dk_pqmodel.specs.Footer.{int32, natural, natural32, file_place};

/// A number of 32 bits.
pub(crate) fn int32(number: Option<i64>) -> Option<i32>
    ensures { result ≡ option_and_then int32 number }
{
    let value = number?;
    if -2_147_483_648 <= value && value <= 2_147_483_647 {
        Some(value as i32)
    } else {
        None
    }
}

/// A count, a size or a place: a number that isn't below zero.
pub(crate) fn natural(number: Option<i64>) -> Option<u64>
    ensures { result ≡ option_and_then natural number }
{
    let value = number?;
    if 0 <= value { Some(value as u64) } else { None }
}

/// A number of 32 bits that isn't below zero.
pub(crate) fn natural32(number: i64) -> Option<u32>
    ensures { result ≡ natural32 number }
{
    if 0 <= number && number <= 2_147_483_647 {
        Some(number as u32)
    } else {
        None
    }
}

/// A place above 0.
pub(crate) fn place(number: Option<i64>) -> Option<u64>
    ensures { result ≡ option_and_then file_place number }
{
    let value = number?;
    if 0 < value { Some(value as u64) } else { None }
}
