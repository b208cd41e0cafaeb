//! The greatest version of some kind. Nothing here takes memory.
ghost use Rattle.std.specs.Prelude.{◌≡◌, ◌<◌, ◌^◌, All, IfSome};
ghost use Rattle.dk_listing.specs.Newest as newest;

use crate::named::Named;
use dk_paths::LogName;
use dk_store::Ratification;

/// The greater of two versions that may be absent. Takes no memory.
pub fn later(one: Option<u64>, other: Option<u64>) -> Option<u64>
    ensures { result ≡ newest.later one other }
{
    match (one, other) {
        (Some(one), Some(other)) => Some(one.max(other)),
        (Some(one), None) => Some(one),
        (None, other) => other,
    }
}

fn commit_version(name: &LogName) -> Option<u64>
    ensures { result ≡ newest.commit_version name.now }
{
    match *name {
        LogName::Commit { version } => Some(version),
        _ => None,
    }
}

/// The version of a checkpoint, by the name of its object, or of one of them (Delta Lake's PROTOCOL.md, "Checkpoints"); None
/// where the name is of no checkpoint. Takes no memory.
pub fn checkpoint_version(name: &LogName) -> Option<u64>
    ensures { result ≡ newest.checkpoint_version name.now }
{
    match *name {
        LogName::Classic { version } => Some(version),
        LogName::Part { version, .. } => Some(version),
        LogName::V2Json { version, .. } => Some(version),
        LogName::V2Parquet { version, .. } => Some(version),
        _ => None,
    }
}

/// The greatest version of a checkpoint among these names.
pub(crate) fn newest_named(names: &[LogName]) -> Option<u64>
    ensures { result ≡ newest.newest_by newest.checkpoint_version names.now }
{
    let mut best = None;
    for name in names {
        best = later(best, checkpoint_version(name));
    }
    best
}

/// The greatest version of a commit.
pub(crate) fn newest_commit(log: &[Named]) -> Option<u64>
    ensures { result ≡ newest.newest_commit log.now }
{
    let mut best = None;
    for named in log {
        best = later(best, commit_version(&named.name));
    }
    best
}

/// The greatest version that stands ratified.
pub(crate) fn newest_ratified(ratified: &[Ratification]) -> Option<u64>
    ensures { result ≡ newest.newest_ratified ratified.now }
{
    let mut best = None;
    for ratification in ratified {
        best = later(best, Some(ratification.version));
    }
    best
}
