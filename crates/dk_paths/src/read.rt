//! From a name to its meaning, by one scan of its bytes.

ghost use Rattle.std.specs.Prelude.{◌≡◌, ◌++◌, ◌^◌, ◌<◌, codes};
ghost use Rattle.dk_paths.specs.Numbers.{version_text};
ghost use Rattle.dk_paths.specs.Names.{IsNameOf, IsReadBack, ReadsLast, ReadsPart, log_name_of};

use crate::LogName;
use crate::ids::read_id;
use crate::numbers::{split_part, split_version};
use crate::strip::{strip_end, strip_front};

/// The fixed texts of names.
const HINT: &[u8] = b"_last_checkpoint";

pub const JSON: &[u8] = b".json";

const COMPACTED: &[u8] = b".compacted.json";

const CHECKPOINT: &[u8] = b".checkpoint.";

const CLASSIC: &[u8] = b"parquet";

pub const PARQUET: &[u8] = b".parquet";

pub const DOT: &[u8] = b".";

/// What a name of the log's folder means (Delta Lake's PROTOCOL.md, "Delta Log Entries", "Checkpoints"). It takes no memory.
pub fn read_name(name: &str) -> LogName
    ensures named { result ≡ log_name_of name.now }
    ensures exact { IsNameOf name.now result }
    ensures back { IsReadBack name.now result }
{
    named(name.as_bytes())
}

fn named(text: &[u8]) -> LogName
    ensures { IsNameOf text.now result }
{
    if text == HINT {
        return LogName::Hint;
    }
    match split_version(text) {
        Some((version, rest)) => read_versioned(version, rest),
        None => LogName::Other,
    }
}

/// A name by what follows its first version.
fn read_versioned(version: u64, rest: &[u8]) -> LogName
    requires { version < 2 ^ 63 }
    ensures { IsNameOf (version_text version ++ rest.now) result }
{
    if rest == JSON {
        return LogName::Commit { version };
    }
    if let Some(kind) = strip_front(rest, CHECKPOINT) {
        return read_checkpoint(version, kind);
    }
    let Some(text) = strip_front(rest, DOT) else {
        return LogName::Other;
    };
    match read_last(version, text) {
        Some(last) => LogName::Compacted {
            first: version,
            last,
        },
        None => LogName::Other,
    }
}

/// The last version of a compacted file, by what follows its first version and the dot.
fn read_last(first: u64, text: &[u8]) -> Option<u64>
    ensures { ReadsLast first text.now result }
{
    let Some((last, ending)) = split_version(text) else {
        return None;
    };
    if first < last && ending == COMPACTED {
        Some(last)
    } else {
        None
    }
}

/// A checkpoint by what follows its version and `.checkpoint.`.
fn read_checkpoint(version: u64, kind: &[u8]) -> LogName
    requires { version < 2 ^ 63 }
    ensures { IsNameOf (version_text version ++ (codes ".checkpoint." ++ kind.now)) result }
{
    if kind == CLASSIC {
        return LogName::Classic { version };
    }
    if let Some(id) = strip_end(kind, JSON) {
        return match read_id(id) {
            Some(id) => LogName::V2Json { version, id },
            None => LogName::Other,
        };
    }
    match strip_end(kind, PARQUET) {
        Some(middle) => read_parquet(version, middle),
        None => LogName::Other,
    }
}

/// A checkpoint in Parquet by what stands between `.checkpoint.` and `.parquet`.
fn read_parquet(version: u64, middle: &[u8]) -> LogName
    requires { version < 2 ^ 63 }
    ensures { IsNameOf (version_text version ++ (codes ".checkpoint." ++ (middle.now ++ codes ".parquet"))) result }
{
    if let Some(id) = read_id(middle) {
        return LogName::V2Parquet { version, id };
    }
    match read_part(middle) {
        Some((part, parts)) => LogName::Part {
            version,
            part,
            parts,
        },
        None => LogName::Other,
    }
}

/// The part and the count of parts that `text` writes; `None` where it is written in any other way, or there is no such part.
fn read_part(text: &[u8]) -> Option<(u32, u32)>
    ensures { ReadsPart text.now result }
{
    let Some((part, rest)) = split_part(text) else {
        return None;
    };
    let Some(text) = strip_front(rest, DOT) else {
        return None;
    };
    let Some((parts, ending)) = split_part(text) else {
        return None;
    };
    if ending.is_empty() && 1 <= part && part <= parts {
        Some((part, parts))
    } else {
        None
    }
}
