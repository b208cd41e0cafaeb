//! How many of the first values of runs pass a test.

ghost use Rattle.std.specs.Prelude.{◌≡◌, ◌==◌, ℕ, ◌≤◌, ◌^◌, ◌<◌, ◌++◌, List, count_by, length, nat_lt, replicate, take, IfOk};
ghost use Rattle.dk_grammar.specs.Runs.{AreFirst};
ghost use Rattle.dk_hybrid.specs.Runs.{kept_values, passes, Counts, GivesValues, HasWholeGroups};

use crate::fault::HybridFault;
use crate::run::{Run, append, read_run};
use std::alloc::{AllocError, Global};

/// Which values are counted.
#[derive(Clone, Copy)]
enum Test {
    /// Those that are equal to this one.
    Equal(u32),
    /// Those below this bound.
    Below(u32),
}

/// How many of the first `count` values of the runs at the front of the bytes are equal to `wanted`
/// (Apache Parquet, "Run Length Encoding / Bit-Packing Hybrid"). `width` is the number of bits of a value.
///
/// A run of copies is counted at once, however many it claims. Memory is taken for values that are packed in the
/// bytes alone, one run at a time. `Width`, `Short` and `OutOfMemory` are answered as by `decode`.
pub fn count_equal(
    alloc: Global,
    bytes: &[u8],
    width: u8,
    count: usize,
    wanted: u32,
) -> Result<usize, HybridFault>
    // Where bytes at the front are runs with these first values, these are counted.
    ensures only { width ≤ 32 → (values front rest : List ℕ) → AreFirst width count values front → bytes.now ≡ front ++ rest
        → GivesValues (λ n. n) result (count_by (λ value. value == wanted) values) }
    ensures few { IfOk result (λ n. n ≤ count) }
{
    count_passing(alloc, bytes, width, count, Test::Equal(wanted))
}

/// How many of the first `count` values of the runs at the front of the bytes are below `bound`
/// (Apache Parquet, "Run Length Encoding / Bit-Packing Hybrid"). `width` is the number of bits of a value.
///
/// Runs are counted, memory is taken and faults are answered as by `count_equal`.
pub fn count_below(
    alloc: Global,
    bytes: &[u8],
    width: u8,
    count: usize,
    bound: u32,
) -> Result<usize, HybridFault>
    // Where bytes at the front are runs with these first values, these are counted.
    ensures only { width ≤ 32 → (values front rest : List ℕ) → AreFirst width count values front → bytes.now ≡ front ++ rest
        → GivesValues (λ n. n) result (count_by (λ value. nat_lt value bound) values) }
    ensures few { IfOk result (λ n. n ≤ count) }
{
    count_passing(alloc, bytes, width, count, Test::Below(bound))
}

/// How many of the first values pass the test.
fn count_passing(
    alloc: Global,
    bytes: &[u8],
    width: u8,
    count: usize,
    test: Test,
) -> Result<usize, HybridFault>
    ensures only { width ≤ 32 → (values front rest : List ℕ) → AreFirst width count values front → bytes.now ≡ front ++ rest
        → GivesValues (λ n. n) result (count_by (λ value. passes test value) values) }
    ensures few { IfOk result (λ n. n ≤ count) }
{
    if width > 32 {
        return Err(HybridFault::Width);
    }
    let mut found = 0;
    let mut left = count;
    let mut rest = bytes;
    while left > 0 {
        let Some((run, after)) = read_run(rest, width) else {
            return Err(HybridFault::Short);
        };
        let (passing, seen) = count_in(alloc, run, width, left, test)?;
        found += passing;
        left -= seen;
        rest = after;
    }
    Ok(found)
}

/// How many of the first values of the run, at most so many, pass the test, and how many these values are.
fn count_in(
    alloc: Global,
    run: Run<'_>,
    width: u8,
    most: usize,
    test: Test,
) -> Result<(usize, usize), AllocError>
    requires narrow { width ≤ 32 }
    requires whole { HasWholeGroups width run }
    ensures { IfOk result (λ x. Counts test most (take most (kept_values width run.entry)) x.0 x.1) }
{
    match run {
        Run::Repeated { copies, value } => {
            let seen = copies.min(most as u64) as usize;
            Ok((passing_copies(value, test, seen), seen))
        }
        Run::Packed { .. } => {
            let mut values = Vec::new(alloc);
            append(&mut values, run, width, most)?;
            Ok((passing_values(&values, test), values.len()))
        }
    }
}

fn passing_copies(value: u32, test: Test, copies: usize) -> usize
    ensures { result ≡ count_by (λ v. passes test v) (replicate copies value) }
{
    if passes(test, value) { copies } else { 0 }
}

fn passing_values(values: &[u32], test: Test) -> usize
    ensures { result ≡ count_by (λ value. passes test value) values.now }
{
    values.iter().filter(|value| passes(test, **value)).count()
}

fn passes(test: Test, value: u32) -> bool
    ensures { result ≡ passes test value }
{
    match test {
        Test::Equal(wanted) => value == wanted,
        Test::Below(bound) => value < bound,
    }
}
