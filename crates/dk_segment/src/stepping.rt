//! The walk over the versions, by compacted files and commits.
ghost use Rattle.std.specs.Prelude.{◌≡◌, ◌<◌, ◌≤◌, ◌+◌, ◌^◌, IfErr, IfOk, IfSome, option_map};
ghost use Rattle.dk_paths.specs.Places.{Compacted, place_path};
ghost use Rattle.dk_lawful.specs.Segments.{after_step};
ghost use Rattle.dk_engine.specs.Answers.{AnswersMeant};
ghost use Rattle.dk_segment.specs.Chosen.{ChooseRefuses};
ghost use Rattle.dk_segment.specs.Places.{AreReached};
ghost use Rattle.dk_segment.specs.Walked.{CanBeWritten, step_found, stepped, steps_known};

use crate::commit_index::{CommitIndex, CommitObject, find_object};
use crate::compacted::Reaches;
use crate::walk::{missing, step_of};
use dk_engine::Refusal;
use dk_lawful::Step;
use dk_model::Text;
use dk_paths::{LogName, write_path};
use std::alloc::{AllocError, Global};

/// What is read for a version.
#[derive(Clone, Copy)]
pub(crate) enum Found {
    Object(CommitObject),
    /// The compacted file that begins with the version.
    Compacted { last: u64 },
}

/// What is read for a version: the compacted file that reaches furthest, else the commit.
#[tactic(auto, using(crate::proofs::StepWalks::found_object, crate::proofs::StepWalks::found_compacted))]
fn find_step(
    commits: &CommitIndex<'_>,
    reaches: &Reaches,
    version: u64,
    staged_first: bool,
) -> Option<Found>
    ensures { option_map (step_found version) result ≡ steps_known commits.now reaches.now staged_first version }
{
    if let Some(last) = reaches.get(&version) {
        return Some(Found::Compacted { last: *last });
    }
    match find_object(commits, version, staged_first) {
        Some(object) => Some(Found::Object(object)),
        None => None,
    }
}

fn compacted_path(alloc: Global, first: u64, last: u64) -> Result<Text, AllocError>
    requires rising { first < last }
    requires small { last < 2 ^ 63 }
    ensures { IfOk result (λ path. path ≡ place_path (Compacted first last)) }
{
    Ok(Text::new(write_path(alloc, &LogName::Compacted { first, last })?))
}

fn make_step(alloc: Global, version: u64, found: Found) -> Result<Step, AllocError>
    requires small { version < 2 ^ 63 }
    requires written { CanBeWritten version found }
    ensures { IfOk result (λ step. step ≡ step_found version found) }
{
    match found {
        Found::Object(object) => step_of(alloc, version, object),
        Found::Compacted { last } => Ok(Step::Compacted {
            first: version,
            last,
            path: compacted_path(alloc, version, last)?,
        }),
    }
}

/// The step of a version, where there is one.
fn next_step(
    alloc: Global,
    commits: &CommitIndex<'_>,
    reaches: &Reaches,
    version: u64,
    asked: u64,
    staged_first: bool,
) -> Result<Option<Step>, AllocError>
    requires within { version ≤ asked }
    requires small { asked < 2 ^ 63 }
    requires reached { AreReached reaches.now asked }
    ensures value { IfOk result (λ step. step ≡ steps_known commits.now reaches.now staged_first version) }
    ensures within { IfOk result (λ step. IfSome step (λ s. after_step s ≤ asked + 1)) }
{
    match find_step(commits, reaches, version, staged_first) {
        None => Ok(None),
        Some(found) => Ok(Some(make_step(alloc, version, found)?)),
    }
}

/// The version that follows a step.
fn after_step(step: &Step) -> u64
    requires { after_step step.now ≤ 2 ^ 63 }
    ensures { result ≡ after_step step.now }
{
    match step {
        Step::Commit { version, .. } => *version + 1,
        Step::Compacted { last, .. } => *last + 1,
    }
}

/// The steps from `first` on up to the asked version, or the first version for which there is none. Each goes on by at least
/// one version.
pub(crate) fn walk_to(
    alloc: Global,
    commits: &CommitIndex<'_>,
    reaches: &Reaches,
    first: u64,
    asked: u64,
    staged_first: bool,
) -> Result<Vec<Step>, Refusal>
    requires first { first ≤ asked + 1 }
    requires small { asked < 2 ^ 63 }
    requires reached { AreReached reaches.now asked }
    ensures means { AnswersMeant (λ found. found.items) result (stepped (steps_known commits.now reaches.now staged_first) asked first) }
    ensures refusals { IfErr result ChooseRefuses }
{
    let mut found = Vec::new(alloc);
    let mut next = first;
    for _step in 0..asked + 1 {
        if next > asked {
            return Ok(found);
        }
        match next_step(alloc, commits, reaches, next, asked, staged_first)? {
            Some(step) => {
                next = after_step(&step);
                found.push(step)?;
            }
            None => return Err(missing(alloc, next)?),
        }
    }
    Ok(found)
}
