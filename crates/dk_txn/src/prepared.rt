//! What a commit of a transaction comes to.
ghost use Rattle.std.specs.Prelude.{◌≡◌, ◌≤◌, ◌<◌, ◌+◌, ◌^◌, IfOk, length};
ghost use Rattle.dk_store.specs.Seen.{IfTold};
ghost use Rattle.std.specs.Option.{ForSome};
ghost use Rattle.dk_engine.specs.Answers.{AnswersMeant};
ghost use Rattle.dk_listing.specs.OfEvents.{IsListingOf};
ghost use Rattle.dk_snapshot.specs.Steps.{AreSized};
ghost use Rattle.dk_txn.specs.Transactions.{IsSmall, ReadsBack, headed, may_come, next_from, oldest_of, outcome, outcome_after, prepared_as, reached_as, reached_by_steps, rules_keep, to_write, unless_conflict, version_of_outcome, writing_at};
ghost use Rattle.dk_txn.specs.Refusals.{CheckRefuses, TestsOnly};
ghost use Rattle.dk_txn.specs.Effects.{OnlyChecks};

use crate::attempt::{Writing, check, within};
use crate::options::CommitOptions;
use crate::start::Start;
use crate::text::{commit_text, txn_id};
use crate::transaction::Transaction;
use crate::winners::{Found, Own, Winners, find_winners, gone, read_winners};
use dk_conflicts::Claims;
use dk_engine::{JsonHandler, Refusal, Which};
use dk_lawful::Segment;
use dk_listing::Catalogued;
use dk_model::{Kind, TableState, Text};
use dk_paths::MAX_VERSION;
use dk_snapshot::{FIRST_COMMIT, oldest_path, survey};
use dk_store::Store;
use std::alloc::Global;

/// What a commit of a transaction comes to.
#[derive(Drop)]
pub(crate) enum Prepared {
    /// Its own commit stands already, as this version.
    AlreadyCommitted { version: u64 },
    /// This is to be written.
    Writing(Writing),
}

/// What was reached of the commits that came since a transaction's snapshot.
#[derive(Drop)]
pub(crate) enum Reached {
    /// The transaction's own commit stands already, as this version.
    AtOwn {
        version: u64,
    },
    /// All are commits of others: the state after them, and the first that is in the way, if one is, by its version.
    After {
        state: TableState,
        conflict: Option<(u64, Kind)>,
    },
}

impl Prepared {
    pub(crate) fn version(&self) -> u64
        ensures { result ≡ version_of_outcome (prepared_as self.now) }
    {
        match self {
            Prepared::AlreadyCommitted { version } => *version,
            Prepared::Writing(writing) => writing.version,
        }
    }
}

/// The version that comes next: after the latest one, and not before the one after the snapshot.
fn next_after(from: u64, latest: Option<u64>) -> u64
    requires { ForSome latest (λ last. last < 2 ^ 63) }
    ensures { result ≡ next_from from latest }
{
    match latest {
        None => from,
        Some(last) => from.max(last + 1),
    }
}

/// The path of the oldest object that the snapshot was read from; without a snapshot that of the first commit.
fn oldest_of(segment: &Option<Segment>) -> &str
    ensures { result.now ≡ oldest_of segment.now }
{
    match segment {
        Some(segment) => oldest_path(segment),
        None => FIRST_COMMIT,
    }
}

/// A table that has begun has a protocol and metadata; else it is damaged as a whole, from its oldest object on.
fn check_heads(alloc: Global, oldest: &str, from: &Start) -> Result<(), Refusal>
    ensures means { AnswersMeant (λ u. u) result (headed oldest.now from.now) }
    ensures tests { TestsOnly result }
{
    if from.version == 0 {
        return Ok(());
    }
    match (&from.before.protocol, &from.before.metadata) {
        (Some(_), Some(_)) => Ok(()),
        _ => Err(Refusal::Damaged {
            path: Text::from_str(alloc, oldest)?,
            place: 0,
        }),
    }
}

/// The first commit that is in the way refuses.
fn check_conflict(conflict: Option<(u64, Kind)>) -> Result<(), Refusal>
    ensures means { AnswersMeant (λ u. u) result (unless_conflict conflict) }
    ensures tests { TestsOnly result }
{
    match conflict {
        None => Ok(()),
        Some((version, kind)) => Err(Refusal::Conflict { version, kind }),
    }
}

/// Tests support and the rules, and then the conflict.
fn check_rules(
    alloc: Global,
    transaction: &Transaction,
    from: &Start,
    conflict: Option<(u64, Kind)>,
) -> Result<(), Refusal>
    ensures means { AnswersMeant (λ u. u) result (rules_keep transaction.now from.now conflict) }
    ensures tests { TestsOnly result }
{
    match check(alloc, from, &transaction.actions) {
        Err(refusal) => Err(refusal),
        Ok(()) => check_conflict(conflict),
    }
}

/// Tests whether the transaction may commit there: the heads first, then support and the rules, then the conflict.
fn check_all(
    alloc: Global,
    transaction: &Transaction,
    from: &Start,
    conflict: Option<(u64, Kind)>,
) -> Result<(), Refusal>
    ensures means { AnswersMeant (λ u. u) result (may_come transaction.now from.now conflict) }
    ensures tests { TestsOnly result }
{
    match check_heads(alloc, oldest_of(&transaction.segment), from) {
        Err(refusal) => Err(refusal),
        Ok(()) => check_rules(alloc, transaction, from, conflict),
    }
}

/// What is to be written there.
fn writing_at(
    alloc: Global,
    json: &mut dyn JsonHandler,
    options: CommitOptions,
    transaction: &Transaction,
    from: &Start,
    conflict: Option<(u64, Kind)>,
) -> Result<Prepared, Refusal>
    ensures means { AnswersMeant prepared_as result (to_write (writing_at transaction.now options.limits options.now from.now conflict)) }
    ensures reads_back { IfOk result (ReadsBack transaction.now.id transaction.now.actions.items) }
    ensures small { from.now.version < 2 ^ 63 → IfOk result IsSmall }
    ensures tests { TestsOnly result }
{
    match check_all(alloc, transaction, from, conflict) {
        Err(refusal) => Err(refusal),
        Ok(()) => {
            let actions = &transaction.actions;
            let text = commit_text(alloc, json, actions, options.now, transaction.id)?;
            match within(options.limits.object, from.version, text) {
                Err(refusal) => Err(refusal),
                Ok(writing) => Ok(Prepared::Writing(writing)),
            }
        }
    }
}

/// Reads the winners, from the state on that the transaction comes after.
fn reach(
    alloc: Global,
    store: &mut dyn Store,
    json: &mut dyn JsonHandler,
    limit: u64,
    transaction: &Transaction,
    winners: &Winners,
) -> Result<Reached, Refusal>
    requires { winners.now.first + length winners.now.steps.items ≤ 2 ^ 63 }
    ensures effects { OnlyChecks CheckRefuses (seen store.old) (seen store.new) result }
    ensures means { IfTold (seen store.old) (λ events. AreSized events winners.now.steps.items winners.now.sizes.items
        → AnswersMeant reached_as result (reached_by_steps events limit transaction.now winners.now.first winners.now.steps.items)) }
{
    let id = txn_id(alloc, transaction.id)?;
    let claims = Claims::new(alloc, &transaction.reads, &transaction.actions)?;
    let own = Own {
        id: id.as_str(),
        claims,
    };
    let mut state = transaction.from.before.copy(alloc)?;
    match read_winners(alloc, store, json, limit, winners, &own, &mut state) {
        Err(refusal) => Err(gone(refusal)),
        Ok(Found::Own { version }) => Ok(Reached::AtOwn { version }),
        Ok(Found::Others { conflict }) => Ok(Reached::After { state, conflict }),
    }
}

/// What a commit comes to after the winners.
fn prepare_after(
    alloc: Global,
    store: &mut dyn Store,
    json: &mut dyn JsonHandler,
    options: CommitOptions,
    transaction: &Transaction,
    winners: &Winners,
) -> Result<Prepared, Refusal>
    requires room { winners.now.first + length winners.now.steps.items ≤ 2 ^ 63 }
    requires small { winners.now.next < 2 ^ 63 }
    ensures effects { OnlyChecks CheckRefuses (seen store.old) (seen store.new) result }
    ensures means { IfTold (seen store.old) (λ events. AreSized events winners.now.steps.items winners.now.sizes.items
        → AnswersMeant prepared_as result (outcome_after transaction.now options.limits options.now winners.now.next
        (reached_by_steps events options.limits.object transaction.now winners.now.first winners.now.steps.items))) }
    ensures reads_back { IfOk result (ReadsBack transaction.now.id transaction.now.actions.items) }
    ensures small { IfOk result IsSmall }
{
    match reach(
        alloc,
        store,
        json,
        options.limits.object,
        transaction,
        winners,
    ) {
        Err(refusal) => Err(refusal),
        Ok(Reached::AtOwn { version }) => Ok(Prepared::AlreadyCommitted { version }),
        Ok(Reached::After { state, conflict }) => {
            let from = Start {
                version: winners.next,
                before: state,
            };
            writing_at(alloc, json, options, transaction, &from, conflict)
        }
    }
}

/// What a commit comes to, by the listing that a survey found. With no winners nothing is read.
fn prepare_listed(
    alloc: Global,
    store: &mut dyn Store,
    json: &mut dyn JsonHandler,
    options: CommitOptions,
    transaction: &Transaction,
    listing: &Catalogued,
) -> Result<Prepared, Refusal>
    ensures effects { OnlyChecks CheckRefuses (seen store.old) (seen store.new) result }
    ensures means { IfTold (seen store.old) (λ events. IsListingOf events listing.now → AnswersMeant prepared_as result (outcome events options.limits transaction.now options.now)) }
    ensures reads_back { IfOk result (ReadsBack transaction.now.id transaction.now.actions.items) }
    ensures small { IfOk result IsSmall }
{
    let from = &transaction.from;
    let next = next_after(from.version, listing.latest());
    if next > MAX_VERSION {
        return Err(Refusal::Limit {
            which: Which::Version,
            value: MAX_VERSION,
        });
    }
    if from.version == next {
        return writing_at(alloc, json, options, transaction, from, None);
    }
    match find_winners(alloc, listing, from.version, next) {
        Err(refusal) => Err(gone(refusal)),
        Ok(winners) => prepare_after(alloc, store, json, options, transaction, &winners),
    }
}

/// What a commit of the transaction over the store comes to. Nothing is written here.
pub(crate) fn prepare(
    alloc: Global,
    store: &mut dyn Store,
    json: &mut dyn JsonHandler,
    options: CommitOptions,
    transaction: &Transaction,
) -> Result<Prepared, Refusal>
    ensures effects { OnlyChecks CheckRefuses (seen store.old) (seen store.new) result }
    ensures means { IfTold (seen store.old) (λ events. AnswersMeant prepared_as result (outcome events options.limits transaction.now options.now)) }
    ensures reads_back { IfOk result (ReadsBack transaction.now.id transaction.now.actions.items) }
    ensures small { IfOk result IsSmall }
{
    match survey(alloc, store) {
        Err(refusal) => Err(refusal),
        Ok(listing) => prepare_listed(alloc, store, json, options, transaction, &listing),
    }
}
