//! The files of rows.

use crate::answers::answer;
use crate::row::text_at;
use crate::trouble::Trouble;
use serde_json::Value;
use std::alloc::Global;
use std::fs;

const FILES: [&str; 6] = [
    "names.jsonl",
    "actions.jsonl",
    "states.jsonl",
    "features.jsonl",
    "conflicts.jsonl",
    "hints.jsonl",
];

/// The answer of a row, where it isn't the wanted one.
fn differing(alloc: Global, line: &str) -> Result<Option<String>, Trouble> {
    let Ok(row) = Value::from_str(alloc, line) else {
        return Err(Trouble::Row);
    };
    let found = answer(alloc, &row)?;
    if found.as_str() == text_at(&row, "wanted")? {
        Ok(None)
    } else {
        Ok(Some(found))
    }
}

/// Makes the calls of a line's row, and tells its answer where it isn't the wanted one.
fn is_as_wanted(rt: &HostRuntime, file: &str, number: u64, line: &str) -> Result<bool, Trouble> {
    match differing(rt.alloc(), line) {
        Ok(None) => Ok(true),
        Ok(Some(found)) => {
            println!(rt; "{file}, line {number}: {found}")?;
            Ok(false)
        }
        Err(trouble) => {
            println!(rt; "{file}, line {number}: {trouble:?}")?;
            Ok(false)
        }
    }
}

/// Makes the calls of a file's rows, and says how many answered as is wanted.
fn are_as_wanted(rt: &HostRuntime, file: &str) -> Result<bool, Trouble> {
    let text = fs::read_to_string(rt, file)?;
    let mut number = 0u64;
    let mut met = 0u64;
    for line in text.lines() {
        number = number.wrapping_add(1);
        if is_as_wanted(rt, file, number, line)? {
            met = met.wrapping_add(1);
        }
    }
    println!(rt; "{file}: {met} of {number} as wanted")?;
    Ok(met == number)
}

fn all_are_as_wanted(rt: &HostRuntime) -> Result<bool, Trouble> {
    let mut all = true;
    for file in &FILES {
        if !are_as_wanted(rt, file)? {
            all = false;
        }
    }
    Ok(all)
}

/// Makes the calls of all files, and answers the exit status: 1 where one answered otherwise, 2 where they can't be made.
pub(crate) fn exit_status(rt: &HostRuntime) -> u8 {
    match all_are_as_wanted(rt) {
        Ok(true) => 0,
        Ok(false) => 1,
        Err(trouble) => {
            let _ = eprintln!(rt; "dk_cases: {trouble:?}");
            2
        }
    }
}
