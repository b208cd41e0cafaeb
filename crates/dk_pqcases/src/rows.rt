//! Rows of cases: a call, what it is made on, and the wanted answer, with ` | ` between them. What a call refuses is
//! the text of its fault.

use crate::{footers, levels, pages, runs, thrift};
use anyhow::{Context, Result};
use std::alloc::{AllocError, Global};
use std::fs;

/// Checks the rows of a file, and prints those that differ and how many there are.
pub fn check_file(rt: &HostRuntime, name: &str) -> Result<()> {
    let path = format!(in rt.alloc(); "{name}.rows")?;
    let text = fs::read_to_string(rt, path.as_str())?;
    let mut count = 0u64;
    let mut wrong = 0u64;
    for line in text.lines() {
        if !line.is_empty() && !line.starts_with('#') {
            count = count.wrapping_add(1);
            if !is_as_wanted(rt, line)? {
                wrong = wrong.wrapping_add(1);
            }
        }
    }
    println!(rt; "{name}: {count} rows, {wrong} not as wanted")?;
    Ok(())
}

/// Whether the row's answer is the wanted one; where it isn't, it is printed.
fn is_as_wanted(rt: &HostRuntime, line: &str) -> Result<bool> {
    let (call, rest) = line.split_once(" | ").context("a row")?;
    let (input, wanted) = rest.split_once(" | ").context("a row")?;
    let answer = text_of(rt.alloc(), answer_to(rt.alloc(), call, input))?;
    let same = answer.as_str().trim() == wanted;
    if !same {
        println!(rt; "{line}\n  {answer}")?;
    }
    Ok(same)
}

fn answer_to(alloc: Global, call: &str, input: &str) -> Result<String> {
    match call.split(' ').next() {
        Some("read") => thrift::read(alloc, call, input),
        Some("write") => thrift::written(alloc, input),
        Some("decode") => runs::decoded(alloc, call, input),
        Some("encode") => runs::encoded(alloc, call, input),
        Some("page") => pages::page_at(alloc, call, input),
        Some("split") => pages::split(alloc, call, input),
        Some("entries") => pages::entries(alloc, call, input),
        Some("footer") => footers::footer(alloc, input),
        Some("file") => footers::file(alloc, input),
        _ => levels::rows(alloc, call, input),
    }
}

fn text_of(alloc: Global, answer: Result<String>) -> Result<String, AllocError> {
    match answer {
        Ok(text) => Ok(text),
        Err(error) => format!(in alloc; "{error}"),
    }
}
