//! Numbers in runs: levels, flags, places in a dictionary.

ghost use Rattle.std.specs.Prelude.{◌≡◌, ◌≤◌, ◌==◌, IfOk, count_by};
ghost use Rattle.dk_pqmodel.specs.FilePages.{IsWidth};
ghost use Rattle.dk_pqread.specs.Meanings.{AreLevelsOf, Finds, Tells, HoldRuns, fault_of, full_count, levels_on_page};
ghost use Rattle.dk_pqread.specs.Room.{AreWithin, Sieves};

use dk_hybrid::{HybridFault, count_below, count_equal, decode};
use dk_pqmodel::PqFault;
use std::alloc::Global;

/// The first numbers of runs (Apache Parquet, "Run Length Encoding / Bit-Packing Hybrid").
pub(crate) fn read_runs(
    alloc: Global,
    bytes: &[u8],
    width: u8,
    count: usize,
) -> Result<Vec<u32>, PqFault>
    requires { width ≤ 32 }
    ensures { Finds (λ v. v.items) result (HoldRuns width count bytes.now) }
{
    match decode(alloc, bytes, width, count) {
        Ok((numbers, _used)) => Ok(numbers),
        Err(fault) => Err(fault_of(fault)),
    }
}

fn fault_of(fault: HybridFault) -> PqFault
    ensures { result ≡ fault_of fault }
{
    match fault {
        HybridFault::OutOfMemory => PqFault::OutOfMemory,
        HybridFault::Width => PqFault::Broken,
        HybridFault::Short => PqFault::Broken,
    }
}

/// So many levels up to the greatest. Where that is 0 all are, and none is kept, however many are claimed.
pub(crate) fn read_levels(
    alloc: Global,
    greatest: u8,
    bytes: &[u8],
    count: usize,
) -> Result<Option<Vec<u32>>, PqFault>
    ensures { Finds (levels_on_page count) result (AreLevelsOf greatest count bytes.now) }
{
    if greatest == 0 {
        return Ok(None);
    }
    Ok(Some(read_runs(alloc, bytes, width(greatest), count)?))
}

/// How many of so many levels up to the greatest are `wanted`. Copies in runs are counted at once, and no level is kept.
pub(crate) fn count_levels(
    alloc: Global,
    greatest: u8,
    bytes: &[u8],
    count: usize,
    wanted: u8,
) -> Result<usize, PqFault>
    requires { wanted ≤ greatest }
    ensures counted { Tells (count_by (λ level. level == wanted)) result (AreLevelsOf greatest count bytes.now) }
    ensures few { IfOk result (λ n. n ≤ count) }
{
    if greatest == 0 {
        return Ok(count);
    }
    match count_equal(alloc, bytes, width(greatest), count, u32::from(wanted)) {
        Ok(levels) => Ok(levels),
        Err(fault) => Err(fault_of(fault)),
    }
}

/// Refuses so many levels of which one is above the greatest. Copies in runs are counted at once, and no level is kept.
pub(crate) fn levels_fit(
    alloc: Global,
    greatest: u8,
    bytes: &[u8],
    count: usize,
) -> Result<(), PqFault>
    ensures { Sieves result (AreLevelsOf greatest count bytes.now) (AreWithin greatest) }
{
    if greatest == 0 {
        return Ok(());
    }
    let bound = u32::from(greatest) + 1;
    match count_below(alloc, bytes, width(greatest), count, bound) {
        Ok(below) => if below == count {
            Ok(())
        } else {
            Err(PqFault::Broken)
        },
        Err(fault) => Err(fault_of(fault)),
    }
}

/// How many bits a level has: the least number that has room for the greatest.
fn width(greatest: u8) -> u8
    ensures room { IsWidth greatest result }
    ensures narrow { result ≤ 8 }
{
    match greatest {
        0 => 0,
        1 => 1,
        2..=3 => 2,
        4..=7 => 3,
        8..=15 => 4,
        16..=31 => 5,
        32..=63 => 6,
        64..=127 => 7,
        128..=255 => 8,
    }
}

/// How many of so many levels are the greatest.
pub(crate) fn count_full(levels: &Option<Vec<u32>>, greatest: u8, count: usize) -> usize
    ensures { result ≡ full_count greatest (levels_on_page count levels.now) }
{
    match levels {
        Some(levels) => levels
            .iter()
            .filter(|level| **level == u32::from(greatest))
            .count(),
        None => { if greatest == 0 { count } else { 0 } }
    }
}
