//! The oldest object that a version is read from.
ghost use Rattle.std.specs.Prelude.{◌≡◌};
ghost use Rattle.dk_snapshot.specs.Steps.{first_part, first_step, oldest_path};

use crate::steps::step_path;
use dk_lawful::{CheckpointRef, Segment, Step};
use dk_model::Names;

/// The path of the first commit.
pub const FIRST_COMMIT: &str = "_delta_log/00000000000000000000.json";

/// The path of the first step, or else of the first commit.
fn first_step(steps: &[Step]) -> &str
    ensures { result.now ≡ first_step steps.now }
{
    match steps.first() {
        Some(step) => step_path(step),
        None => FIRST_COMMIT,
    }
}

/// The path of the first part, or else of the first commit.
fn first_part(paths: &Names) -> &str
    ensures { result.now ≡ first_part paths.now }
{
    match paths.as_slice().first() {
        Some(path) => path.as_str(),
        None => FIRST_COMMIT,
    }
}

/// The path of the oldest object of a segment: the object of the checkpoint that it goes on from, or its first part, or without
/// a checkpoint the first commit or compacted file. A log that has no protocol or no metadata is damaged there (Delta Lake's
/// PROTOCOL.md, "Checkpoints", "Protocol Evolution", "Change Metadata"). Takes no memory.
pub fn oldest_path(segment: &Segment) -> &str
    ensures { result.now ≡ oldest_path segment.now }
{
    match &segment.base {
        None => first_step(segment.steps.as_slice()),
        Some(CheckpointRef::Classic { path, .. }) => path.as_str(),
        Some(CheckpointRef::Parts { paths, .. }) => first_part(paths),
        Some(CheckpointRef::V2 { path, .. }) => path.as_str(),
    }
}
