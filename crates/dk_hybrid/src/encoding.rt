//! Runs out of values.

ghost use Rattle.std.specs.Prelude.{◌≡◌, ℕ, ◌+◌, ◌-◌, ◌*◌, ◌/◌, ◌%◌, ◌^◌, ◌<◌, ◌≤◌, ◌++◌, List, [], length, take, replicate, slice_index, All, IfOk, OnOk};
ghost use Rattle.dk_grammar.specs.Runs.{AreFirst};
ghost use Rattle.dk_hybrid.specs.Appended.{AppendsNumber, AppendsRun, TakesRun, padding_of};

use crate::packing::pack;
use std::alloc::{AllocError, Global};

/// How many values a group has, and how many equal values are worth a run of their own.
const GROUP: usize = 8;

/// Runs of the values, `width` bits each (Apache Parquet, "Run Length Encoding / Bit-Packing Hybrid").
///
/// Eight equal values and more are one run, and others are packed in groups of eight. The last group
/// is padded with zeros, so a reader has to know how many values there are.
/// `Err` is want of memory.
pub fn encode(alloc: Global, values: &[u32], width: u8) -> Result<Vec<u8>, AllocError>
    requires narrow { width ≤ 32 }
    requires fit { All (λ value. value < 2 ^ width) values.now }
    // The bytes are runs of these values. So `decode` gives the values back.
    ensures runs { IfOk result (λ bytes. AreFirst width (length values.now) values.now bytes.items) }
    ensures size { IfOk result (λ bytes. length bytes.items ≤ 40 + 5 * length values.now) }
{
    let mut out = Vec::new(alloc);
    let mut rest = values;
    while !rest.is_empty() {
        let count = append_run(&mut out, rest, width)?;
        let (_, after) = rest.split_at(count);
        rest = after;
    }
    Ok(out)
}

/// Adds a run of the first values, and answers how many it has.
fn append_run(out: &mut Vec<u8>, values: &[u32], width: u8) -> Result<usize, AllocError>
    requires some { 0 < length values.now }
    requires narrow { width ≤ 32 }
    requires fit { All (λ value. value < 2 ^ width) values.now }
    ensures { IfOk result (λ count. TakesRun width values.now count out.old.items out.new.items) }
{
    let equal = equal_values(values);
    if equal >= GROUP {
        append_repeated(out, values[0], equal, width)?;
        return Ok(equal);
    }
    let count = mixed_values(values);
    append_packed(out, &values[..count], width)?;
    Ok(count)
}

/// How many values at the front are equal.
fn equal_values(values: &[u32]) -> usize
    requires { 0 < length values.now }
    ensures within { result ≤ length values.now }
    ensures equal { take result values.now ≡ replicate result (slice_index values.now 0) }
{
    for (i, value) in values.iter().enumerate() {
        if *value != values[0] {
            return i;
        }
    }
    values.len()
}

/// How many values at the front to pack: whole groups up to one of equal values, or all.
fn mixed_values(values: &[u32]) -> usize
    requires { 0 < length values.now }
    ensures some { 0 < result }
    ensures within { result ≤ length values.now }
    ensures whole { result < length values.now → result % 8 ≡ 0 }
{
    for i in 1..values.len() / GROUP {
        let group = &values[GROUP * i..GROUP * (i + 1)];
        if group.iter().all(|value| *value == group[0]) {
            return GROUP * i;
        }
    }
    values.len()
}

/// Adds a run of copies of a value.
fn append_repeated(
    out: &mut Vec<u8>,
    value: u32,
    copies: usize,
    width: u8,
) -> Result<(), AllocError>
    requires narrow { width ≤ 32 }
    requires fit { value < 2 ^ width }
    requires many { 8 ≤ copies }
    requires room { copies < 2 ^ 63 }
    ensures { OnOk result (AppendsRun width (replicate copies value) [] out.old.items out.new.items) }
{
    append_number(out, 2 * copies as u64)?;
    let len = usize::from(width).div_ceil(8);
    pack(out, &[value], width, len)
}

/// Adds a run of the values in groups of eight.
fn append_packed(out: &mut Vec<u8>, values: &[u32], width: u8) -> Result<(), AllocError>
    requires some { 0 < length values.now }
    requires narrow { width ≤ 32 }
    requires fit { All (λ value. value < 2 ^ width) values.now }
    requires room { length values.now < 2 ^ 61 }
    ensures { OnOk result (AppendsRun width values.now (replicate (padding_of (length values.now)) 0) out.old.items out.new.items) }
{
    let groups = values.len().div_ceil(GROUP);
    append_number(out, 2 * groups as u64 + 1)?;
    pack(out, values, width, groups * usize::from(width))
}

/// Adds the number that a run begins with.
fn append_number(out: &mut Vec<u8>, number: u64) -> Result<(), AllocError>
    ensures { OnOk result (AppendsNumber number out.old.items out.new.items) }
{
    let mut rest = number;
    while rest >= 128 {
        out.push((rest % 128) as u8 + 128)?;
        rest /= 128;
    }
    out.push(rest as u8)?;
    Ok(())
}
