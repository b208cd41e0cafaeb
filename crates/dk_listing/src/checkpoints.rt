//! Which checkpoints are complete: a checkpoint in parts, where all of its parts are listed.
ghost use Rattle.std.specs.Prelude.{◌≡◌, ◌<◌, ◌^◌, All, IfOk};
ghost use Rattle.dk_listing.specs.Newest as newest;
ghost use Rattle.dk_listing.specs.Parts.{HasParts, has_part};

use crate::named::Named;
use dk_paths::LogName;
use std::alloc::{AllocError, Global};
use std::collections::BTreeSet;

/// The parts of checkpoints, each by its version, its checkpoint's number of parts, and its own number.
type Parts = BTreeSet<(u64, u32, u32)>;

fn listed_parts(alloc: Global, log: &[Named]) -> Result<Parts, AllocError>
    ensures { IfOk result (λ set. HasParts set log.now) }
{
    let mut set = BTreeSet::new(alloc);
    for named in log {
        if let LogName::Part {
            version,
            part,
            parts,
        } = named.name
        {
            set.insert((version, parts, part))?;
        }
    }
    Ok(set)
}

/// Whether all parts of a checkpoint of so many are there.
fn has_all(set: &Parts, version: u64, parts: u32) -> bool
    ensures { result ≡ newest.all_up_to (has_part set.now version parts) parts }
{
    for before in 0..parts {
        if !set.contains(&(version, parts, before + 1)) {
            return false;
        }
    }
    true
}

/// The version of the complete checkpoint that this name begins, if it begins one: of those in parts the first part is asked
/// alone, so that each part is looked up once.
fn complete_version(set: &Parts, name: &LogName) -> Option<u64>
    ensures { result ≡ newest.complete_version (has_part set.now) name.now }
{
    match *name {
        LogName::Classic { version } => Some(version),
        LogName::V2Json { version, .. } => Some(version),
        LogName::V2Parquet { version, .. } => Some(version),
        LogName::Part {
            version,
            part: 1,
            parts,
        } if has_all(set, version, parts) => Some(version),
        _ => None,
    }
}

/// Each complete checkpoint by the name that begins it, in the order of the log: of one in parts that of its first part.
pub(crate) fn complete_checkpoints(alloc: Global, log: &[Named]) -> Result<Vec<LogName>, AllocError>
    ensures { IfOk result (λ found. found.items ≡ newest.complete_checkpoints log.now) }
{
    let set = listed_parts(alloc, log)?;
    let mut found = Vec::new(alloc);
    for named in log {
        if complete_version(&set, &named.name).is_some() {
            found.push(named.name)?;
        }
    }
    Ok(found)
}
