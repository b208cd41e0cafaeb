//! Values out of runs.

ghost use Rattle.std.specs.Prelude.{◌≡◌, ℕ, ◌<◌, ◌≤◌, ◌↔◌, ◌++◌, List, length, take, IfOk, IsErr, IsErrOf};
ghost use Rattle.dk_grammar.specs.Runs.{AreFirst, EndShort};
ghost use Rattle.dk_hybrid.specs.Runs.{GivesValues};

use crate::fault::HybridFault;
use crate::run::{append, read_run};
use std::alloc::Global;

/// The first `count` values of the runs at the front of the bytes, and how many bytes these runs take
/// (Apache Parquet, "Run Length Encoding / Bit-Packing Hybrid"). `width` is the number of bits of a value.
///
/// A run is used whole: what it has past the count is padding. The value of a repeated run is given as
/// it stands in its bytes, also where it is too large for the width. `Width` is answered where the
/// width is over 32, `Short` where the bytes end inside a run that is needed, `OutOfMemory` where
/// memory is refused. A run that claims more values than are wanted takes no memory for them.
pub fn decode(
    alloc: Global,
    bytes: &[u8],
    width: u8,
    count: usize,
) -> Result<(Vec<u32>, usize), HybridFault>
    // The values are the first of the runs that so many bytes are.
    ensures found { IfOk result (λ x. (x.1 ≤ length bytes.now) × AreFirst width count x.0.items (take x.1 bytes.now)) }
    ensures count { IfOk result (λ x. length x.0.items ≡ count) }
    // Where bytes at the front are runs with these first values, it is these that are answered.
    ensures only { width ≤ 32 → (values front rest : List ℕ) → AreFirst width count values front → bytes.now ≡ front ++ rest
        → GivesValues {Y = List ℕ × ℕ} (λ x. (x.0.items, x.1)) result (values, length front) }
    ensures width { IsErrOf result HybridFault.Width ↔ (32 < width) }
    // `Short` comes only where the bytes end first, and there no values are answered.
    ensures short { IsErrOf result HybridFault.Short → EndShort width count bytes.now }
    ensures ended { EndShort width count bytes.now → IsErr result }
{
    if width > 32 {
        return Err(HybridFault::Width);
    }
    let mut values = Vec::new(alloc);
    let mut rest = bytes;
    while values.len() < count {
        let Some((run, after)) = read_run(rest, width) else {
            return Err(HybridFault::Short);
        };
        let missing = count - values.len();
        append(&mut values, run, width, missing)?;
        rest = after;
    }
    Ok((values, bytes.len() - rest.len()))
}
