//! The timestamp of a commit.

ghost use Rattle.std.specs.Prelude.{◌≡◌, ◌≤ℤ◌, ◌<ℤ◌, IfSome, Some};
ghost use Rattle.dk_times.specs.Next.{IsAfter, timestamp_after};

/// The timestamp of a commit that is made at the moment `now`, after one of the timestamp `before`: the greater of `now`
/// and one millisecond after `before`, both in milliseconds since 1970-01-01T00:00:00Z (Delta Lake's PROTOCOL.md,
/// "In-Commit Timestamps"). None exactly where `before` is the greatest i64, since no timestamp is later. Takes no
/// memory.
pub fn next_timestamp(now: i64, before: Option<i64>) -> Option<i64>
    ensures exact { result ≡ timestamp_after now before }
    ensures rises { IfSome result (λ time. IsAfter before time) }
    ensures current { IfSome result (λ time. now ≤ℤ time) }
{
    match before {
        None => Some(now),
        Some(before) => later_than(now, before),
    }
}

/// The greater of `now` and one more than `before`.
fn later_than(now: i64, before: i64) -> Option<i64>
    ensures exact { result ≡ timestamp_after now (Some before) }
    ensures rises { IfSome result (λ time. before <ℤ time) }
    ensures current { IfSome result (λ time. now ≤ℤ time) }
{
    if before == i64::MAX {
        return None;
    }
    if before < now {
        Some(now)
    } else {
        Some(before + 1)
    }
}
