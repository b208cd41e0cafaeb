//! The number that a run begins with.

ghost use Rattle.std.specs.Prelude.{◌≡◌, ℕ, ◌+◌, ◌*◌, ◌/◌, ◌%◌, ◌^◌, ◌<◌, ◌≤◌, length, drop, slice_index, MatchOption, None};
ghost use Rattle.dk_grammar.specs.Varint.{varint_at};
ghost use Rattle.dk_hybrid.specs.Headers.{capped, kept_header, BeginNumber, BeginHeader};

/// What a run is, and how long. A number past the greatest `u64` stands as that, since no more
/// values are ever asked for.
#[derive(Clone, Copy)]
pub(crate) enum Header {
    /// So many copies of one value.
    Copies(u64),
    /// So many groups of eight values.
    Groups(u64),
}

/// The header at the front, and the bytes behind it. `None` where the bytes end inside it.
pub(crate) fn read_header(bytes: &[u8]) -> Option<(Header, &[u8])>
    ensures { MatchOption result (varint_at bytes.now ≡ None) (λ x. BeginHeader bytes.now x.0 x.1.now) }
{
    let (first, rest) = bytes.split_first()?;
    if *first < 128 {
        return Some((header_of(*first, 0), rest));
    }
    let (high, rest) = read_number(rest)?;
    Some((header_of(*first - 128, high), rest))
}

/// The header whose lowest seven bits are `low`.
fn header_of(low: u8, high: u64) -> Header
    ensures { (number : ℕ) → high ≡ capped number → result ≡ kept_header (low + 128 * number) }
{
    let amount = high.saturating_mul(64).saturating_add(u64::from(low / 2));
    if low % 2 == 0 {
        Header::Copies(amount)
    } else {
        Header::Groups(amount)
    }
}

/// The number at the front, or the greatest `u64` where it is greater, and the bytes behind it.
fn read_number(bytes: &[u8]) -> Option<(u64, &[u8])>
    ensures { MatchOption result (varint_at bytes.now ≡ None) (λ x. BeginNumber bytes.now x.0 x.1.now) }
{
    for (last, byte) in bytes.iter().enumerate() {
        if *byte < 128 {
            return Some((number_up_to(bytes, last), &bytes[last + 1..]));
        }
    }
    None
}

/// The number whose highest seven bits stand at `last`, or the greatest `u64` where it is greater.
fn number_up_to(bytes: &[u8], last: usize) -> u64
    requires within { last < length bytes.now }
    requires ends { slice_index bytes.now last < 128 }
    requires goes_on { (i : ℕ) → i < last → 128 ≤ slice_index bytes.now i }
    ensures { BeginNumber bytes.now result (drop (last + 1) bytes.now) }
{
    let mut number = u64::from(bytes[last]);
    for i in (0..last).rev() {
        number = number
            .saturating_mul(128)
            .saturating_add(u64::from(bytes[i] - 128));
    }
    number
}
