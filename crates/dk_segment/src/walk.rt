//! The walk over the versions, one by one.
ghost use Rattle.std.specs.Prelude.{◌≡◌, ◌<◌, ◌≤◌, ◌+◌, ◌^◌, IfErr, IfOk, string_bytes};
ghost use Rattle.dk_paths.specs.Names.{commit_path};
ghost use Rattle.dk_paths.specs.Places.{place_path};
ghost use Rattle.dk_lawful.specs.declared.segment.Step.TheVariants as steps;
ghost use Rattle.dk_lawful.specs.Segments.{commit_place};
ghost use Rattle.dk_engine.specs.Answers.{AnswersMeant};
ghost use Rattle.dk_segment.specs.Chosen.{ChooseRefuses};
ghost use Rattle.dk_segment.specs.CommitIndex.{name_ratified_for, has_place};
ghost use Rattle.dk_segment.specs.Walked.{object_place, walked};

use crate::commit_index::{CommitIndex, CommitObject, find_object};
use dk_engine::Refusal;
use dk_lawful::Step;
use dk_model::Text;
use dk_paths::{commit_path, staged_path};
use std::alloc::{AllocError, Global};

fn path_of(alloc: Global, version: u64, object: CommitObject) -> Result<String, AllocError>
    requires { version < 2 ^ 63 }
    ensures { IfOk result (λ path. string_bytes path ≡ place_path (object_place version object)) }
{
    match object {
        CommitObject::Published => commit_path(alloc, version),
        CommitObject::Staged { id } => staged_path(alloc, version, id),
    }
}

/// The step of a version whose commit is read from this object.
pub(crate) fn step_of(alloc: Global, version: u64, object: CommitObject) -> Result<Step, AllocError>
    requires { version < 2 ^ 63 }
    ensures { IfOk result (λ step. step ≡ steps.Commit version (place_path (object_place version object))) }
{
    Ok(Step::Commit {
        version,
        path: Text::new(path_of(alloc, version, object)?),
    })
}

/// The refusal of a version that is missing, by the path of its commit in the log.
pub(crate) fn missing(alloc: Global, version: u64) -> Result<Refusal, AllocError>
    requires { version < 2 ^ 63 }
    ensures { IfOk result (λ refusal. refusal ≡ Refusal.Missing (commit_path version)) }
{
    Ok(Refusal::Missing {
        path: Text::new(commit_path(alloc, version)?),
    })
}

/// The steps of so many versions, from `first` on, or the first whose commit isn't there.
pub(crate) fn walk(
    alloc: Global,
    commits: &CommitIndex<'_>,
    first: u64,
    count: u64,
    staged_first: bool,
) -> Result<Vec<Step>, Refusal>
    requires { first + count ≤ 2 ^ 63 }
    ensures means { AnswersMeant (λ found. found.items) result (walked (commit_place (has_place commits.now) (name_ratified_for commits.now) staged_first) first count) }
    ensures refusals { IfErr result ChooseRefuses }
{
    let mut found = Vec::new(alloc);
    for version in first..first + count {
        match find_object(commits, version, staged_first) {
            Some(object) => found.push(step_of(alloc, version, object)?)?,
            None => return Err(missing(alloc, version)?),
        }
    }
    Ok(found)
}
