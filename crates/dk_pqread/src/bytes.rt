//! Parts of bytes.

ghost use Rattle.std.specs.Prelude.{◌≡◌, length, option_map};
ghost use Rattle.dk_grammar.specs.Digits.{number_of};
ghost use Rattle.dk_pages.specs.Split.{cut, sized};

/// The first `size` bytes, and those behind them.
pub(crate) fn cut(size: usize, bytes: &[u8]) -> Option<(&[u8], &[u8])>
    ensures { option_map (λ x. (x.0.now, x.1.now)) result ≡ cut size bytes.now }
{
    if size <= bytes.len() {
        Some(bytes.split_at(size))
    } else {
        None
    }
}

/// Bytes behind their number, which has four bytes, the least first, and the bytes behind them.
pub(crate) fn sized(bytes: &[u8]) -> Option<(&[u8], &[u8])>
    ensures { option_map (λ x. (x.0.now, x.1.now)) result ≡ sized bytes.now }
{
    let (size, rest) = cut(4, bytes)?;
    cut(number(size) as usize, rest)
}

/// A number of four bytes, the least first.
pub(crate) fn number(bytes: &[u8]) -> u32
    requires { length bytes.now ≡ 4 }
    ensures { result ≡ number_of 256 bytes.now }
{
    u32::from_le_bytes([bytes[0], bytes[1], bytes[2], bytes[3]])
}

/// A number of eight bytes, the least first.
pub(crate) fn long_number(bytes: &[u8]) -> u64
    requires { length bytes.now ≡ 8 }
    ensures { result ≡ number_of 256 bytes.now }
{
    u64::from_le_bytes([
        bytes[0], bytes[1], bytes[2], bytes[3], bytes[4], bytes[5], bytes[6], bytes[7],
    ])
}
