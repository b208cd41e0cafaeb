//! Times by the stamps of objects.

ghost use Rattle.std.specs.Prelude.{◌≡◌, IfOk, None};
ghost use Rattle.dk_times.specs.Times.{raised, raised_from};

use crate::next::next_timestamp;
use std::alloc::{AllocError, Global};

/// A stamp, raised to one millisecond after the time before, but never above the greatest i64.
fn raised(before: Option<i64>, stamp: i64) -> i64
    ensures { result ≡ raised before stamp }
{
    match next_timestamp(stamp, before) {
        Some(time) => time,
        None => i64::MAX,
    }
}

/// The times of versions whose commits don't say them, from the stamps of their commits' objects, both oldest first and in
/// milliseconds since 1970-01-01T00:00:00Z: each stamp is raised to one millisecond after the time before it, but never above
/// the greatest i64 (Delta Lake's PROTOCOL.md, "In-Commit Timestamps"). As many times as stamps. `Err` says that memory was
/// wanted and not had.
pub fn stamped_times(alloc: Global, stamps: &[i64]) -> Result<Vec<i64>, AllocError>
    ensures { IfOk result (λ times. times.items ≡ raised_from None stamps.now) }
{
    let mut times = Vec::new(alloc);
    let mut before = None;
    'stamps: for stamp in stamps {
        let time = raised(before, *stamp);
        times.push(time)?;
        before = Some(time);
    }
    Ok(times)
}
