//! The choice of a segment.
ghost use Rattle.std.specs.Prelude.{◌<◌, ◌≤◌, ◌+◌, ◌^◌, IfErr, IfSome, false, option_map};
ghost use Rattle.dk_engine.specs.Answers.{AnswersMeant};
ghost use Rattle.dk_listing.specs.Presence.{listed_places, lists, ratified_name};
ghost use Rattle.dk_lawful.specs.Segments.{begins_at, commit_place, steps_of, version_of};
ghost use Rattle.dk_segment.specs.Chosen.{ChooseRefuses, chosen, chosen_segment};
ghost use Rattle.dk_segment.specs.Walked.{stepped, walked};
ghost use Rattle.dk_segment.specs.Places.{reference};

use crate::base::{Base, begins_at, find_base, refer_base};
use crate::commit_index::index_commits;
use crate::compacted::index_compacted;
use crate::stepping::walk_to;
use crate::walk::walk;
use dk_engine::Refusal;
use dk_lawful::{Checkpoints, Choice, Segment, Step, StepList};
use dk_listing::Catalogued;
use std::alloc::Global;

/// The steps of a version behind its base, or the first commit that is missing.
fn steps_after(
    alloc: Global,
    listing: &Catalogued,
    base: Option<Base>,
    version: u64,
    choice: &Choice,
) -> Result<Vec<Step>, Refusal>
    requires small { version < 2 ^ 63 }
    requires within { IfSome base (λ b. version_of (reference b) ≤ version) }
    ensures means { AnswersMeant (λ steps. steps.items) result (stepped (steps_of (listed_places listing.now) (ratified_name listing.now) choice.now version) version (begins_at (option_map reference base))) }
    ensures refusals { IfErr result ChooseRefuses }
{
    let commits = index_commits(alloc, listing)?;
    listing.note_rising();
    let reaches = index_compacted(alloc, &listing.log, choice.compacted, version)?;
    let first = begins_at(base);
    walk_to(
        alloc,
        &commits,
        &reaches,
        first,
        version,
        choice.staged_first,
    )
}

/// What a version is read from, by a listing of the whole log (Delta Lake's PROTOCOL.md, "Delta Log Entries", "Checkpoints",
/// "Log Compaction Files", "Catalog-managed tables"): the greatest complete checkpoint that the choice allows and that is at
/// most the version, and the commits behind it, from version 0 on where there is none.
///
/// At one version a checkpoint in one object by the version's name is taken, else the one in most parts, else the one of the
/// form V2 whose name is least. Where the choice allows compacted files, the one that begins at the next version and reaches
/// furthest without passing the asked one stands for its commits. A commit that is both published and still ratified is read
/// from the staged object where the choice asks for that and the object is listed, else from the published one. A ratified
/// commit that isn't published is read from its staged object. Beside want of memory it is refused as `Missing` alone, with the
/// published commit's path of the first version for which nothing is listed.
pub fn choose(
    alloc: Global,
    listing: &Catalogued,
    version: u64,
    choice: &Choice,
) -> Result<Segment, Refusal>
    requires { version < 2 ^ 63 }
    ensures means { AnswersMeant (λ segment. segment) result (chosen_segment (listed_places listing.now) (ratified_name listing.now) version choice.now) }
    ensures refusals { IfErr result ChooseRefuses }
{
    let base = find_base(listing, choice.checkpoints, version);
    match steps_after(alloc, listing, base, version, choice) {
        Err(refusal) => Err(refusal),
        Ok(steps) => Ok(Segment {
            base: refer_base(alloc, base)?,
            steps: StepList::new(steps),
        }),
    }
}

/// The same where neither a checkpoint nor a compacted file is chosen, whatever the choice says of them: each commit from version
/// 0 on.
pub fn choose_commits(
    alloc: Global,
    listing: &Catalogued,
    version: u64,
    choice: &Choice,
) -> Result<Segment, Refusal>
    requires { version < 2 ^ 63 }
    ensures means { AnswersMeant (λ segment. segment) result (chosen (lists listing.now) (ratified_name listing.now) version choice.now) }
    ensures refusals { IfErr result ChooseRefuses }
{
    let plain = Choice {
        checkpoints: Checkpoints::No,
        compacted: false,
        staged_first: choice.staged_first,
    };
    choose(alloc, listing, version, &plain)
}

/// From where the commits of the `count` versions from `first` on are read, each by itself and in their order: the published
/// commit where it is listed, else the staged one where that stands ratified and is listed (Delta Lake's PROTOCOL.md, "Delta
/// Log Entries", "Catalog-managed tables"). Beside want of memory it is refused as `Missing` alone, with the path of the
/// published commit of the first version with neither.
pub fn find_commits(
    alloc: Global,
    listing: &Catalogued,
    first: u64,
    count: u64,
) -> Result<Vec<Step>, Refusal>
    requires { first + count ≤ 2 ^ 63 }
    ensures means { AnswersMeant (λ steps. steps.items) result (walked (commit_place (lists listing.now) (ratified_name listing.now) false) first count) }
    ensures refusals { IfErr result ChooseRefuses }
{
    let commits = index_commits(alloc, listing)?;
    walk(alloc, &commits, first, count, false)
}
