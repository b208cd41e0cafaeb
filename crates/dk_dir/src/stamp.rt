//! The stamp of a file.

use std::fs::Metadata;
use std::os::unix::fs::MetadataExt;

// The file's time of last change in whole milliseconds since 1970.
pub(crate) fn stamp_of(metadata: &Metadata) -> i64 {
    let millis = metadata.mtime().saturating_mul(1000);
    millis.saturating_add(metadata.mtime_nsec() / 1_000_000)
}
