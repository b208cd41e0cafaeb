//! Entries with what their names mean.

use dk_paths::LogName;
use dk_store::Entry;

/// An entry of the log's own folder.
#[derive(Drop)]
pub struct Named {
    /// What its name means.
    pub name: LogName,
    pub entry: Entry,
}

/// An entry of the folder of staged commits.
#[derive(Drop)]
pub struct Staged {
    /// The version that the commit was staged for, from 0 to 9,223,372,036,854,775,807.
    pub version: u64,
    /// The UUID in its name.
    pub id: u128,
    pub entry: Entry,
}
