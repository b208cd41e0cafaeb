//! Files of cases: one in each line, as JSON.

use crate::calls::is_as_wanted;
use crate::trouble::Trouble;
use serde_json::Value;
use std::alloc::Global;
use std::fs;

/// The files that lie beside the program.
const FILES: [&str; 4] = [
    "schemas.jsonl",
    "written.jsonl",
    "files.jsonl",
    "styles.jsonl",
];

/// Prints a line for each file, and answers the exit status: 1 where a case didn't come as wanted or couldn't be tried.
pub(crate) fn exit_status(rt: &HostRuntime) -> u8 {
    let mut status = 0;
    for file in FILES {
        match try_file(rt, file) {
            Ok(true) => {}
            Ok(false) => status = 1,
            Err(trouble) => {
                let _ = eprintln!(rt; "{file}: {trouble:?}");
                status = 1;
            }
        }
    }
    status
}

/// Tries the cases of a file, prints what came of them, and answers whether all came as wanted.
fn try_file(rt: &HostRuntime, file: &str) -> Result<bool, Trouble> {
    let bytes = fs::read(rt, file)?;
    let text = std::str::from_utf8(&bytes).map_err(|_| Trouble::Form)?;
    let mut cases = 0u64;
    let mut failed = 0u64;
    for line in text.lines() {
        cases = cases.saturating_add(1);
        if !try_line(rt.alloc(), line) {
            failed = failed.saturating_add(1);
            println!(rt; "{file}: not as wanted: {line}")?;
        }
    }
    if failed == 0 {
        println!(rt; "{file}: {cases} cases, all as wanted")?;
    }
    Ok(failed == 0)
}

/// Whether the case of a line came as wanted.
fn try_line(alloc: Global, line: &str) -> bool {
    match Value::from_str(alloc, line) {
        Ok(case) => match is_as_wanted(alloc, &case) {
            Ok(wanted) => wanted,
            Err(_) => false,
        },
        Err(_) => false,
    }
}
