//! Levels of triples, as the bytes of a data page.

ghost use Rattle.std.specs.Prelude.{◌≡◌, ◌≤◌, ◌<◌, ◌^◌, ◌++◌, IfOk, OnOk, All, length, map};
ghost use Rattle.dk_grammar.specs.Plain.{little};
ghost use Rattle.dk_levels.specs.Borrowed.{borrowed_triple};
ghost use Rattle.dk_pqmodel.specs.FilePages.{IsWidth};
ghost use Rattle.dk_pqwrite.specs.AddedLevels.{AddsLevels};

use dk_hybrid::encode;
use dk_levels::BorrowedTriple;
use std::alloc::{AllocError, Global};

/// The repetition levels of triples.
pub(crate) fn repetitions(
    alloc: Global,
    triples: &[BorrowedTriple<'_>],
) -> Result<Vec<u32>, AllocError>
    ensures { IfOk result (λ v. v.items ≡ map (λ e. e.repetition) (map borrowed_triple triples.now)) }
{
    let mut levels = Vec::with_capacity(alloc, triples.len())?;
    for triple in triples {
        levels.push(u32::from(triple.repetition))?;
    }
    Ok(levels)
}

/// The definition levels of triples.
pub(crate) fn definitions(
    alloc: Global,
    triples: &[BorrowedTriple<'_>],
) -> Result<Vec<u32>, AllocError>
    ensures { IfOk result (λ v. v.items ≡ map (λ e. e.definition) (map borrowed_triple triples.now)) }
{
    let mut levels = Vec::with_capacity(alloc, triples.len())?;
    for triple in triples {
        levels.push(u32::from(triple.definition))?;
    }
    Ok(levels)
}

/// Adds levels up to the greatest: runs behind their length. Where the greatest is 0 nothing is added.
pub(crate) fn add_levels(
    alloc: Global,
    body: &mut Vec<u8>,
    greatest: u8,
    levels: &[u32],
) -> Result<(), AllocError>
    requires few { length levels.now ≤ 2 ^ 26 }
    requires within { All (λ level. level ≤ greatest) levels.now }
    ensures { OnOk result (AddsLevels greatest levels.now body.old.items body.new.items) }
{
    if greatest == 0 {
        return Ok(());
    }
    let runs = encode(alloc, levels, width(greatest))?;
    add_sized(body, &runs)
}

/// Adds bytes behind their number, which has four bytes, the least first.
pub(crate) fn add_sized(out: &mut Vec<u8>, bytes: &[u8]) -> Result<(), AllocError>
    requires { length bytes.now < 2 ^ 32 }
    ensures { OnOk result (out.new.items ≡ out.old.items ++ (little 4 (length bytes.now) ++ bytes.now)) }
{
    out.extend_from_slice(&(bytes.len() as u32).to_le_bytes())?;
    out.extend_from_slice(bytes)?;
    Ok(())
}

/// How many bits a level has: the least number that has room for the greatest.
fn width(greatest: u8) -> u8
    ensures room { IsWidth greatest result }
    ensures narrow { result ≤ 8 }
{
    match greatest {
        0 => 0,
        1 => 1,
        2..=3 => 2,
        4..=7 => 3,
        8..=15 => 4,
        16..=31 => 5,
        32..=63 => 6,
        64..=127 => 7,
        128..=255 => 8,
    }
}
