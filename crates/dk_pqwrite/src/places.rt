//! Texts by their places in a dictionary.

ghost use Rattle.std.specs.Prelude.{◌+◌, ◌*◌, ◌<◌, ◌≤◌, ◌^◌, All, List, ℕ, OnOk, length, map};
ghost use Rattle.dk_pqmodel.specs.Datum.{chars};
ghost use Rattle.dk_pqmodel.specs.FilePages.{BehindWidth};
ghost use Rattle.dk_pqwrite.specs.Adding.{AddsBytes};
ghost use Rattle.dk_pqwrite.specs.FirstUses.{AreTheirs};

use crate::dictionary::Dictionary;
use dk_hybrid::encode;
use std::alloc::{AllocError, Global};

/// Adds the places of texts: a byte with their width, and runs (Apache Parquet, "Dictionary Encoding"). The byte stands there where
/// there is no place too.
pub(crate) fn add_places(
    alloc: Global,
    out: &mut Vec<u8>,
    dictionary: &Dictionary<'_>,
) -> Result<(), AllocError>
    requires few { length dictionary.now.texts.keys ≤ 2 ^ 26 }
    requires fit { All (λ place. place < length dictionary.now.texts.keys) dictionary.now.places.items }
    ensures { OnOk result ((texts : List (List ℕ)) → AreTheirs (map (λ k. k.now) dictionary.now.texts.keys) dictionary.now.places.items texts
        → AddsBytes (BehindWidth (map chars (map (λ k. k.now) dictionary.now.texts.keys)) (map chars texts)) (41 + 5 * length dictionary.now.places.items) out.old.items out.new.items) }
{
    let width = width(dictionary.texts.len());
    let runs = encode(alloc, &dictionary.places, width)?;
    out.push(width)?;
    out.extend_from_slice(&runs)?;
    Ok(())
}

/// How many bits a place among so many has.
fn width(count: usize) -> u8
    requires { count ≤ 2 ^ 26 }
    ensures room { count ≤ 2 ^ result }
    ensures narrow { result ≤ 26 }
{
    let mut width = 0;
    let mut room: usize = 1;
    while room < count {
        room *= 2;
        width += 1;
    }
    width
}
