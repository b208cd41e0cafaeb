//! Names of the log, and intervals.

use crate::trouble::Trouble;
use dk_paths::{
    LogName, commit_path, is_sidecar, read_interval, read_name, read_staged, sidecar_path,
    staged_path, write_name, write_path, write_sidecar, write_staged,
};
use std::alloc::{AllocError, Global};

/// A meaning, by a word and its numbers.
fn meaning(alloc: Global, name: &LogName) -> Result<String, AllocError> {
    match *name {
        LogName::Commit { version } => format!(in alloc; "commit {version}"),
        LogName::Classic { version } => format!(in alloc; "classic {version}"),
        LogName::Part {
            version,
            part,
            parts,
        } => format!(in alloc; "part {part} of {parts} of {version}"),
        LogName::V2Json { version, id } => format!(in alloc; "json {version} {id}"),
        LogName::V2Parquet { version, id } => format!(in alloc; "parquet {version} {id}"),
        LogName::Compacted { first, last } => format!(in alloc; "compacted {first} to {last}"),
        LogName::Hint => String::from_str(alloc, "hint"),
        LogName::Other => String::from_str(alloc, "other"),
    }
}

/// What a name means, and the name and path that are written for that.
pub(crate) fn name_answer(alloc: Global, text: &str) -> Result<String, Trouble> {
    let name = read_name(text);
    let meaning = meaning(alloc, &name)?;
    if let LogName::Other = name {
        return Ok(meaning);
    }
    let written = write_name(alloc, &name)?;
    let path = write_path(alloc, &name)?;
    Ok(format!(in alloc; "{meaning} {written} {path}")?)
}

/// The path of a version's commit.
pub(crate) fn commit_answer(alloc: Global, version: u64) -> Result<String, Trouble> {
    if version > dk_paths::MAX_VERSION {
        return Err(Trouble::Row);
    }
    Ok(commit_path(alloc, version)?)
}

/// The staged commit that a name is, and the name and path that are written for that.
pub(crate) fn staged_answer(alloc: Global, text: &str) -> Result<String, Trouble> {
    let Some((version, id)) = read_staged(text) else {
        return Ok(String::from_str(alloc, "other")?);
    };
    let written = write_staged(alloc, version, id)?;
    let path = staged_path(alloc, version, id)?;
    Ok(format!(in alloc; "{version} {id} {written} {path}")?)
}

/// The path of the sidecar that a name is.
pub(crate) fn sidecar_answer(alloc: Global, name: &str) -> Result<String, Trouble> {
    if is_sidecar(name) {
        Ok(sidecar_path(alloc, name)?)
    } else {
        Ok(String::from_str(alloc, "other")?)
    }
}

/// The name of the sidecar of a UUID, and its path.
pub(crate) fn own_sidecar_answer(alloc: Global, id: u64) -> Result<String, Trouble> {
    let name = write_sidecar(alloc, u128::from(id))?;
    sidecar_answer(alloc, name.as_str())
}

/// The milliseconds of an interval.
pub(crate) fn interval_answer(alloc: Global, text: &str) -> Result<String, Trouble> {
    match read_interval(text) {
        Some(milliseconds) => Ok(format!(in alloc; "{milliseconds}")?),
        None => Ok(String::from_str(alloc, "none")?),
    }
}
