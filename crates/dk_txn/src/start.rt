//! What a commit comes after.
ghost use Rattle.std.specs.Prelude.{◌<◌, ◌^◌, ◌+◌, Err, IfOk};
ghost use Rattle.dk_store.specs.Seen.{IfTold};
ghost use Rattle.std.specs.Option.{ForSome};
ghost use Rattle.dk_engine.specs.Answers.{AnswersMeant};
ghost use Rattle.dk_listing.specs.OfEvents.{IsListingOf};
ghost use Rattle.dk_txn.specs.Attempt.{start, start_of};
ghost use Rattle.dk_txn.specs.Effects.{OnlyChecks};
ghost use Rattle.dk_txn.specs.Refusals.{BeginRefuses};

use crate::options::CommitOptions;
use dk_engine::{JsonHandler, Refusal, Which};
use dk_listing::Catalogued;
use dk_model::TableState;
use dk_paths::MAX_VERSION;
use dk_snapshot::{OpenOptions, Snapshot, open_listed, survey, usual_choice};
use dk_store::Store;
use std::alloc::Global;

/// What a commit comes after.
#[derive(Drop)]
pub struct Start {
    /// The version that the commit is to be.
    pub version: u64,
    /// The state before it: after all commits up to the version before, or the empty one.
    pub before: TableState,
}

/// The latest version, which a commit is to come after, by the listing that a survey found; none of an empty log.
fn open_latest_listed(
    alloc: Global,
    store: &mut dyn Store,
    json: &mut dyn JsonHandler,
    options: CommitOptions,
    listing: &Catalogued,
) -> Result<Option<Snapshot>, Refusal>
    ensures effects { OnlyChecks BeginRefuses (seen store.old) (seen store.new) result }
    ensures means { IfTold (seen store.old) (λ events. IsListingOf events listing.now → AnswersMeant start_of result (start events options.limits options.now)) }
    ensures small { IfOk result (λ snapshot. ForSome snapshot (λ s. s.version + 1 < 2 ^ 63)) }
{
    let Some(latest) = listing.latest() else {
        return Ok(None);
    };
    if latest == MAX_VERSION {
        return Err(Refusal::Limit {
            which: Which::Version,
            value: MAX_VERSION,
        });
    }
    let choice = usual_choice();
    let opening = OpenOptions {
        limits: options.limits,
        now: options.now,
        choice,
    };
    match open_listed(alloc, store, json, listing, None, opening) {
        Err(refusal) => Err(refusal),
        Ok(snapshot) => Ok(Some(snapshot)),
    }
}

/// The latest version, which a commit is to come after; none of an empty log. Lists the log, its staged commits and the
/// catalogue once each, and reads each commit once.
pub(crate) fn open_latest(
    alloc: Global,
    store: &mut dyn Store,
    json: &mut dyn JsonHandler,
    options: CommitOptions,
) -> Result<Option<Snapshot>, Refusal>
    ensures effects { OnlyChecks BeginRefuses (seen store.old) (seen store.new) result }
    ensures means { IfTold (seen store.old) (λ events. AnswersMeant start_of result (start events options.limits options.now)) }
    ensures small { IfOk result (λ snapshot. ForSome snapshot (λ s. s.version + 1 < 2 ^ 63)) }
{
    match survey(alloc, store) {
        Err(refusal) => Err(refusal),
        Ok(listing) => open_latest_listed(alloc, store, json, options, &listing),
    }
}
