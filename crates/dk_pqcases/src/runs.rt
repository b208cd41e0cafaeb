//! Calls on runs of values.

ghost use Rattle.std.specs.Prelude.{◌^◌, ◌<◌, ◌≤◌, All, IfOk};

use anyhow::{Context, Result, bail};
use dk_hybrid::{decode, encode};
use std::alloc::{AllocError, Global};

/// The values of the runs, and how many bytes they take. The words of `call` are the width and how many values are wanted.
pub fn decoded(alloc: Global, call: &str, input: &str) -> Result<String> {
    let (_, words) = call.split_once(' ').context("a width")?;
    let (width, count) = words.split_once(' ').context("a count")?;
    let bytes = hex::decode(alloc, input)?;
    let (values, used) = decode(alloc, &bytes, width.parse()?, count.parse()?)?;
    let said = numbers_text(alloc, &values)?;
    let text = format!(in alloc; "{said}in {used}")?;
    Ok(text)
}

fn numbers_text(alloc: Global, values: &[u32]) -> Result<String, AllocError> {
    let mut said = String::new(alloc);
    for value in values {
        write!(said, "{value} ")?;
    }
    Ok(said)
}

/// The runs of the values, which are of the width that stands behind the call's name.
pub fn encoded(alloc: Global, call: &str, input: &str) -> Result<String> {
    let (_, width) = call.split_once(' ').context("a width")?;
    let width = width.parse()?;
    if width > 32 {
        bail!("too wide");
    }
    let values = values_of(alloc, input, width)?;
    let bytes = encode(alloc, &values, width)?;
    let text = hex::encode(alloc, &bytes)?;
    Ok(text)
}

/// The numbers of a text, each of at most so many bits.
fn values_of(alloc: Global, text: &str, width: u8) -> Result<Vec<u32>>
    requires { width ≤ 32 }
    ensures { IfOk result (λ values. All (λ value. value < 2 ^ width) values.items) }
{
    let mut values = Vec::new(alloc);
    for word in text.split_whitespace() {
        let value = word.parse::<u32>()?;
        if u64::from(value) >= 1u64 << width {
            bail!("too wide");
        }
        values.push(value)?;
    }
    Ok(values)
}
