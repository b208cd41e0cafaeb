//! Flags in the encoding PLAIN (Apache Parquet, "Plain").

ghost use Rattle.std.specs.Prelude.{◌≡◌, ◌≤◌, OnOk, length, map};
ghost use Rattle.dk_grammar.specs.Digits.{number_of};
ghost use Rattle.dk_grammar.specs.Plain.{AreFlags, bit_of};
ghost use Rattle.dk_pqwrite.specs.Adding.{AddsBytes};

use std::alloc::AllocError;

/// How many flags a byte has.
const FLAGS: usize = 8;

/// Adds flags, eight a byte and the least bit first. The last byte is padded with zeros.
pub(crate) fn add_flags(out: &mut Vec<u8>, flags: &[bool]) -> Result<(), AllocError>
    ensures { OnOk result (AddsBytes (AreFlags flags.now) (length flags.now) out.old.items out.new.items) }
{
    let mut rest = flags;
    while !rest.is_empty() {
        let (group, behind) = rest.split_at(rest.len().min(FLAGS));
        out.push(byte_of(group))?;
        rest = behind;
    }
    Ok(())
}

/// The byte with these bits, the least first.
fn byte_of(flags: &[bool]) -> u8
    requires { length flags.now ≤ 8 }
    ensures { result ≡ number_of 2 (map bit_of flags.now) }
{
    let mut byte = 0;
    for place in (0..flags.len()).rev() {
        byte = 2 * byte + bit(flags[place]);
    }
    byte
}

fn bit(flag: bool) -> u8
    ensures { result ≡ bit_of flag }
{
    if flag { 1 } else { 0 }
}
