//! Where the footer stands in a file.

ghost use Rattle.std.specs.Prelude.{◌≡◌, ◌≢◌, ◌<◌, ◌^◌, ◌++◌, List, ℕ, MatchOption, length};
ghost use Rattle.dk_grammar.specs.Digits.{number_of};
ghost use Rattle.dk_grammar.specs.Plain.{little};
ghost use Rattle.dk_pqmodel.specs.FooterBytes.{IsFramed, magic};

/// What a Parquet file begins and ends with.
const MAGIC: &[u8] = b"PAR1";

/// The footer of a file: between the two magics, in front of its own length, which has four bytes, the least first. `None` comes
/// exactly where the magic isn't there or the length doesn't fit.
pub(crate) fn footer_part(bytes: &[u8]) -> Option<&[u8]>
    ensures { MatchOption result ((before part : List ℕ) → IsFramed bytes.now before part → ⊥) (λ part. (before : List ℕ) × IsFramed bytes.now before part.now) }
{
    let Some(behind) = after_magic(bytes) else {
        return None;
    };
    let Some(inside) = before_magic(behind) else {
        return None;
    };
    sized_at_end(inside)
}

fn after_magic(bytes: &[u8]) -> Option<&[u8]>
    ensures { MatchOption result ((rest : List ℕ) → bytes.now ≢ magic ++ rest) (λ rest. bytes.now ≡ magic ++ rest.now) }
{
    bytes.strip_prefix(MAGIC)
}

fn before_magic(bytes: &[u8]) -> Option<&[u8]>
    ensures { MatchOption result ((front : List ℕ) → bytes.now ≢ front ++ magic) (λ front. bytes.now ≡ front.now ++ magic) }
{
    bytes.strip_suffix(MAGIC)
}

/// Bytes that stand at the end, in front of their length.
fn sized_at_end(bytes: &[u8]) -> Option<&[u8]>
    ensures { MatchOption result
        ((content part : List ℕ) → length part < 2 ^ 32 → bytes.now ≢ content ++ (part ++ little 4 (length part)))
        (λ part. (content : List ℕ) × (length part.now < 2 ^ 32) × (bytes.now ≡ content ++ (part.now ++ little 4 (length part.now)))) }
{
    if bytes.len() < 4 {
        return None;
    }
    let (front, last) = bytes.split_at(bytes.len() - 4);
    let size = number(last) as usize;
    if front.len() < size {
        return None;
    }
    let (_, part) = front.split_at(front.len() - size);
    Some(part)
}

/// A number of four bytes, the least first.
fn number(bytes: &[u8]) -> u32
    requires { length bytes.now ≡ 4 }
    ensures value { result ≡ number_of 256 bytes.now }
    ensures spelled { little 4 result ≡ bytes.now }
{
    u32::from_le_bytes([bytes[0], bytes[1], bytes[2], bytes[3]])
}
