//! The rows of the file beside the program.

use crate::answer::answer;
use crate::row::row_of;
use anyhow::Result;
use std::fs;

const FILE: &str = "checkpoints.jsonl";

/// Reads the checkpoints of all rows, and says how many don't mean what is wanted.
pub(crate) fn check(rt: &HostRuntime) -> Result<()> {
    let text = fs::read_to_string(rt, FILE)?;
    let mut count = 0u64;
    let mut wrong = 0u64;
    for line in text.lines() {
        count = count.wrapping_add(1);
        if !is_as_wanted(rt, line)? {
            wrong = wrong.wrapping_add(1);
        }
    }
    println!(rt; "{count} checkpoints, {wrong} not as wanted")?;
    Ok(())
}

/// Whether the checkpoint of a row means what is wanted; where it doesn't, its name and what it means are printed.
fn is_as_wanted(rt: &HostRuntime, line: &str) -> Result<bool> {
    let row = row_of(rt.alloc(), line)?;
    let answer = answer(rt.alloc(), &row)?;
    let same = answer.as_str() == row.wanted.as_str();
    if !same {
        println!(rt; "{}: {answer}", row.name)?;
    }
    Ok(same)
}
