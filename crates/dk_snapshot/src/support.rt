//! Which states are opened, and from which moment on their removed files are still told.
ghost use Rattle.std.specs.Prelude.{◌≡◌, ◌≤ℤ◌, pos, Err, None, Some, IfErr, IfOk, IfSome};
ghost use Rattle.dk_engine.specs.Answers.{AnswersMeant};
ghost use Rattle.dk_snapshot.specs.Refusals.{OpenRefuses};
ghost use Rattle.dk_snapshot.specs.Support.{cut_before, cut_of, cut_unless, has_vectors, retention, unreadable};

use dk_engine::Refusal;
use dk_features::unread_name;
use dk_model::{AddFile, Metadata, Protocol, TableState, Text, TextMap};
use dk_paths::read_interval;
use std::alloc::{AllocError, Global};

/// The setting of how long removed files are told.
const RETENTION_KEY: &str = "delta.deletedFileRetentionDuration";

/// How long removed files are told where it isn't set, in milliseconds: one week.
const USUAL_RETENTION: i128 = 604_800_000;

/// Whether a deletion vector stands beside a file.
fn has_vectors(files: &TextMap<AddFile>) -> bool
    ensures { result ≡ has_vectors files.now }
{
    for (_path, file) in files.iter() {
        if file.vector {
            return true;
        }
    }
    false
}

/// What isn't read of a table with this protocol and these live files, by its name: what the protocol asks for
/// ([`dk_features::unread_name`]), then `deletionVectors` where one stands beside a file; None where all is read (Delta Lake's
/// PROTOCOL.md, "Reader Requirements", "Reader Requirements for Deletion Vectors").
pub fn unreadable(
    alloc: Global,
    protocol: &Protocol,
    files: &TextMap<AddFile>,
) -> Result<Option<Text>, AllocError>
    ensures { IfOk result (λ name. name ≡ unreadable protocol.now files.now) }
{
    if let Some(name) = unread_name(alloc, protocol)? {
        return Ok(Some(name));
    }
    if has_vectors(files) {
        return Ok(Some(Text::from_str(alloc, "deletionVectors")?));
    }
    Ok(None)
}

/// How long removed files are told, in milliseconds; None where the setting's text is no interval.
fn retention(metadata: &Metadata) -> Option<i128>
    ensures value { result ≡ retention metadata.now }
    ensures not_negative { IfSome result (λ kept. pos 0 ≤ℤ kept) }
{
    match metadata.setting(RETENTION_KEY) {
        None => Some(USUAL_RETENTION),
        Some(text) => read_interval(text.as_str()),
    }
}

/// The moment up to which tombstones are expired.
fn cut_before(now: i64, kept: i128) -> i64
    requires { pos 0 ≤ℤ kept }
    ensures { result ≡ cut_before now kept }
{
    (now as i128).saturating_sub(kept).max(i64::MIN as i128) as i64
}

/// The cut of a state with these parts, at a moment.
fn cut_with(
    alloc: Global,
    protocol: &Protocol,
    metadata: &Metadata,
    files: &TextMap<AddFile>,
    now: i64,
) -> Result<i64, Refusal>
    ensures means { AnswersMeant (λ cut. cut) result (cut_unless (unreadable protocol.now files.now) (retention metadata.now) now) }
    ensures store { result ≡ Err Refusal.Store → ⊥ }
    ensures refusals { IfErr result (OpenRefuses None) }
{
    if let Some(name) = unreadable(alloc, protocol, files)? {
        return Err(Refusal::Unsupported { name });
    }
    match retention(metadata) {
        Some(kept) => Ok(cut_before(now, kept)),
        None => Err(Refusal::Unsupported {
            name: Text::from_str(alloc, RETENTION_KEY)?,
        }),
    }
}

/// The cut of a state at a moment, where the state is one that is opened. `oldest` is the path of the oldest object that
/// it was read from.
pub(crate) fn cut_of(
    alloc: Global,
    state: &TableState,
    oldest: &str,
    now: i64,
) -> Result<i64, Refusal>
    ensures means { AnswersMeant (λ cut. cut) result (cut_of oldest.now state.now now) }
    ensures store { result ≡ Err Refusal.Store → ⊥ }
    ensures refusals { IfErr result (OpenRefuses None) }
{
    match (&state.protocol, &state.metadata) {
        (Some(protocol), Some(metadata)) => {
            cut_with(alloc, protocol, metadata, &state.files, now)
        }
        _ => Err(Refusal::Damaged {
            path: Text::from_str(alloc, oldest)?,
            place: 0,
        }),
    }
}
