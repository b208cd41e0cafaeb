//! Transactions: what was read of a table, and what is to be committed to it.
ghost use Rattle.std.specs.Prelude.{IfErr, ◌≡◌, ◌<◌, ◌^◌, ◌++◌, ◌∷◌, [], Ok, Some, None, IfOk, IfSome, OnOk, OnErr, is_some, option_map, true};
ghost use Rattle.dk_store.specs.Seen.{IfTold};
ghost use Rattle.dk_engine.specs.Effects.{MayPut};
ghost use Rattle.std.specs.Option.{ForSome};
ghost use Rattle.dk_engine.specs.Answers.{AnswersMeant, AnswersBy};
ghost use Rattle.dk_lawful.specs.Kept.{IfBoth, KeepsLawful};
ghost use Rattle.dk_txn.specs.Attempt.{own_commit, start, start_of};
ghost use Rattle.dk_txn.specs.Commits.{CountsClash, was_taken};
ghost use Rattle.dk_txn.specs.Effects.{MayCommit, OnlyChecks};
ghost use Rattle.dk_txn.specs.Starts.{StartsAs};
ghost use Rattle.dk_txn.specs.TransactionHistory.{SaysFrom, SaysOwn, StaysLawfulFrom};
ghost use Rattle.dk_txn.specs.Transactions.{Begins, Comes, Concludes, ConcludesHistory, IsNew, Remembers, outcome, version_meant};
ghost use Rattle.dk_txn.specs.Refusals.{BeginRefuses, CheckRefuses, TransactionRefuses};

use crate::commit::{Committed, write};
use crate::options::{CommitOptions, Intent};
use crate::prepared::{Prepared, prepare};
use crate::start::{Start, open_latest};
use dk_conflicts::Reads;
use dk_engine::{JsonHandler, Refusal};
use dk_lawful::Segment;
use dk_model::{Action, TableState};
use dk_snapshot::Snapshot;
use dk_store::Store;
use std::alloc::{AllocError, Global};

/// A staged commit that a transaction made for itself.
#[derive(Clone, Copy)]
pub(crate) struct StagedCommit {
    pub version: u64,
    /// The id in its name.
    pub uuid: u128,
}

/// What was read of a table, and what is to be committed to it.
#[derive(Drop)]
pub struct Transaction {
    /// What it comes after: the version after its snapshot's with the snapshot's state, or version 0 with the empty state.
    pub(crate) from: Start,
    /// The objects that its snapshot was read from.
    pub(crate) segment: Option<Segment>,
    pub(crate) reads: Reads,
    pub(crate) id: u128,
    /// What it commits, behind the line in which it speaks of its commit.
    pub(crate) actions: Vec<Action>,
    /// The staged commit that it made for itself, with no action put after it; none where commits are files of their own.
    pub(crate) staged: Option<StagedCommit>,
    /// The version that was answered.
    pub(crate) committed: Option<u64>,
}

/// What comes after a snapshot, and the objects that it was read from.
fn start_of(alloc: Global, snapshot: Option<Snapshot>) -> (Start, Option<Segment>)
    requires { ForSome snapshot (λ s. s.version < 2 ^ 63) }
    ensures from { result.0 ≡ start_of snapshot }
    ensures segment { result.1 ≡ option_map (λ s. s.segment) snapshot }
{
    match snapshot {
        None => (
            Start {
                version: 0,
                before: TableState::new(alloc),
            },
            None,
        ),
        Some(snapshot) => {
            let Snapshot {
                version,
                state,
                cut: _,
                segment,
            } = snapshot;
            (
                Start {
                    version: version + 1,
                    before: state,
                },
                Some(segment),
            )
        }
    }
}

/// One attempt to commit: it is refused by `Taken` where something was put at the commit's path since the log was listed, and no
/// other answer comes after a clash.
fn attempt_commit(
    alloc: Global,
    store: &mut dyn Store,
    json: &mut dyn JsonHandler,
    options: CommitOptions,
    transaction: &Transaction,
) -> Result<Committed, Refusal>
    ensures commits { IfTold (seen store.old) (λ events. Concludes (outcome events options.limits transaction.now options.now) events result (seen store.new).told) }
    ensures puts { MayPut (seen store.old) (seen store.new) result }
    ensures refusals { IfErr result TransactionRefuses }
    ensures clash { CountsClash result (seen store.old).clashes (seen store.new).clashes }
    ensures lawful { IfTold (seen store.old) (λ events. Comes (outcome events options.limits transaction.now options.now) (own_commit transaction.now.id transaction.now.actions.items) events) → KeepsLawful (seen store.old).told (seen store.new).told }
    ensures history { IfTold (seen store.old) (λ events. Comes (outcome events options.limits transaction.now options.now) (own_commit transaction.now.id transaction.now.actions.items) events)
        → IfBoth (seen store.old).told (seen store.new).told (λ events later. ConcludesHistory (outcome events options.limits transaction.now options.now) (own_commit transaction.now.id transaction.now.actions.items) result events later) }
{
    match prepare(alloc, store, json, options, transaction) {
        Err(refusal) => Err(refusal),
        Ok(Prepared::AlreadyCommitted { version }) => Ok(Committed { version }),
        Ok(Prepared::Writing(writing)) => write(alloc, store, &writing, options.now),
    }
}

/// Whether an attempt found the path taken.
fn was_taken(answer: &Result<Committed, Refusal>) -> bool
    ensures { result ≡ was_taken answer.now }
{
    match answer {
        Err(Refusal::Taken { .. }) => true,
        _ => false,
    }
}

/// Commits; after a clash all begins again once, and a second clash is answered.
pub(crate) fn commit_with_retry(
    alloc: Global,
    store: &mut dyn Store,
    json: &mut dyn JsonHandler,
    options: CommitOptions,
    transaction: &Transaction,
) -> Result<Committed, Refusal>
    ensures commits { IfTold (seen store.old) (λ events. Concludes (outcome events options.limits transaction.now options.now) events result (seen store.new).told) }
    ensures effects { MayCommit TransactionRefuses (seen store.old) (seen store.new) result }
    ensures lawful { IfTold (seen store.old) (λ events. Comes (outcome events options.limits transaction.now options.now) (own_commit transaction.now.id transaction.now.actions.items) events) → KeepsLawful (seen store.old).told (seen store.new).told }
    ensures history { IfTold (seen store.old) (λ events. Comes (outcome events options.limits transaction.now options.now) (own_commit transaction.now.id transaction.now.actions.items) events)
        → IfBoth (seen store.old).told (seen store.new).told (λ events later. ConcludesHistory (outcome events options.limits transaction.now options.now) (own_commit transaction.now.id transaction.now.actions.items) result events later) }
{
    let answer = attempt_commit(alloc, store, json, options, transaction);
    if was_taken(&answer) {
        attempt_commit(alloc, store, json, options, transaction)
    } else {
        answer
    }
}

impl Transaction {
    /// A transaction that comes after this snapshot, has read so much of it and commits nothing yet (Delta Lake's PROTOCOL.md,
    /// "ACID guarantees"). Without a snapshot the log was empty, and it comes before all.
    ///
    /// Takes no memory and isn't refused.
    pub fn begin(alloc: Global, snapshot: Option<Snapshot>, intent: Intent) -> Transaction
        requires { ForSome snapshot (λ s. s.version < 2 ^ 63) }
        ensures { Begins snapshot intent.reads intent.id result }
    {
        let (from, segment) = start_of(alloc, snapshot);
        let Intent { reads, id } = intent;
        Transaction {
            from,
            segment,
            reads,
            id,
            actions: Vec::new(alloc),
            staged: None,
            committed: None,
        }
    }

    /// A transaction that begins at the latest version, or before all of an empty log, has read so much of it and commits nothing
    /// yet (Delta Lake's PROTOCOL.md, "ACID guarantees"). The log, its staged commits and the catalogue are listed once each, and
    /// what the version is read from is read once.
    ///
    /// It is refused as [`dk_snapshot::open_at`] is, and by `Limit` of `Version` where no version can follow.
    pub fn begin_latest(
        alloc: Global,
        store: &mut dyn Store,
        json: &mut dyn JsonHandler,
        options: CommitOptions,
        intent: Intent,
    ) -> Result<Transaction, Refusal>
        ensures effects { OnlyChecks BeginRefuses (seen store.old) (seen store.new) result }
        ensures means { IfTold (seen store.old) (λ events. AnswersMeant (λ t. t.from) result (start events options.limits options.now)) }
        ensures opens { IfTold (seen store.old) (λ events. AnswersBy (λ t. t.from) result (StartsAs events options.limits options.now)) }
        ensures new { IfOk result (IsNew intent.reads intent.id) }
    {
        match open_latest(alloc, store, json, options) {
            Err(refusal) => Err(refusal),
            Ok(snapshot) => Ok(Transaction::begin(alloc, snapshot, intent)),
        }
    }

    /// Lays an action behind those that are to be committed (Delta Lake's PROTOCOL.md, "Actions"). A commit that it staged
    /// before isn't its own any more. Where memory is refused, all is as before.
    pub fn put(&mut self, action: Action) -> Result<(), AllocError>
        ensures ok { OnOk result (self.new.actions.items ≡ self.old.actions.items ++ action ∷ []) }
        ensures unstaged { OnOk result (self.new.staged ≡ None) }
        ensures err { OnErr result (self.new.actions.items ≡ self.old.actions.items) }
        ensures as_staged { OnErr result (self.new.staged ≡ self.old.staged) }
        ensures same { self.new ≡ record self.old { actions = self.new.actions; staged = self.new.staged } }
    {
        self.actions.push(action)?;
        self.staged = None;
        Ok(())
    }

    /// The version that a commit would get now, or the one that its own commit has, found by its id (Delta Lake's PROTOCOL.md,
    /// "Commit Provenance Information"); nothing is written.
    ///
    /// After an Ok of [`Transaction::commit`] it looks as before: it finds the own commit among the winners, or is refused by
    /// `WinnersGone` where a cleanup has taken one of these. The refusals are those of [`Transaction::commit`], but for `Taken`,
    /// which never comes.
    pub fn check(
        &self,
        alloc: Global,
        store: &mut dyn Store,
        json: &mut dyn JsonHandler,
        options: CommitOptions,
    ) -> Result<u64, Refusal>
        ensures effects { OnlyChecks CheckRefuses (seen store.old) (seen store.new) result }
        ensures means { IfTold (seen store.old) (λ events. AnswersMeant (λ version. version) result (version_meant (outcome events options.limits self.now options.now))) }
    {
        match prepare(alloc, store, json, options, self) {
            Err(refusal) => Err(refusal),
            Ok(prepared) => Ok(prepared.version()),
        }
    }

    /// Commits as the next version of the table, or as its version 0 (Delta Lake's PROTOCOL.md, "Delta Log Entries",
    /// "Commit Provenance Information").
    ///
    /// The log, its staged commits and the catalogue are listed once each. Then the winners are read, the commits that came after
    /// the snapshot, in ascending order and each once: published where it is listed, else the staged one where that stands
    /// ratified. A winner that says the transaction's id is its own commit, made by a call whose answer was lost: its version is
    /// answered, and nothing is written. Else the whole text is made, and put where nothing stands. Where another writer was there first, all
    /// begins again once. After an Ok the same is answered again, with no call of the store and no memory. After any refusal
    /// the transaction is as before, and the call may be made again.
    ///
    /// Beside faults of the store and want of memory it is refused, in this order: `Limit` of `Version` where no version can
    /// follow the latest or the snapshot's, `WinnersGone` of the first version whose commit isn't listed, of the first winner
    /// that can't be read `Limit` of `Object` or `Damaged`, `Damaged` of the oldest object as a whole where the table has
    /// no protocol or no metadata, `Unsupported` of what the table asks for that isn't read or isn't written, and then of what the
    /// transaction would have it ask for that isn't written so far, by name, `Invalid` where a rule is broken,
    /// `Conflict` with the first winner that is in the way, `Limit` of `Object` where the text is greater than
    /// `limits.object` bytes, `Taken` where two other writers were there first, with the commit's path.
    ///
    /// `commits` says all this of the events of a told store; `lawful` and `history` say of a lawful log whose state its snapshot
    /// agrees with that it stays lawful and has the commit that the law of the log has the transaction make; and `own` says it in
    /// the words of those who are at work on a table: with the transaction fit, Ok says that its commit stood there already, or is
    /// the one commit more; the rules held there and no winner was in the way; the log stays lawful, and the transaction fit.
    pub fn commit(
        &mut self,
        alloc: Global,
        store: &mut dyn Store,
        json: &mut dyn JsonHandler,
        options: CommitOptions,
    ) -> Result<Committed, Refusal>
        ensures again { IfSome self.old.committed (λ version. result ≡ Ok (record { version = version })) }
        ensures untouched { is_some self.old.committed ≡ true → store.new ≡ store.old }
        ensures commits { self.old.committed ≡ None
            → IfTold (seen store.old) (λ events. Concludes (outcome events options.limits self.old options.now) events result (seen store.new).told) }
        ensures remembers { Remembers self.old result self.new }
        ensures effects { MayCommit TransactionRefuses (seen store.old) (seen store.new) result }
        ensures lawful { self.old.committed ≡ None → IfBoth (seen store.old).told (seen store.new).told (StaysLawfulFrom self.old) }
        ensures history { self.old.committed ≡ None
            → IfBoth (seen store.old).told (seen store.new).told (SaysFrom self.old options.now (λ events. outcome events options.limits self.old options.now) result) }

        // In the words of those who are at work on a table.
        ensures own { IfBoth (seen store.old).told (seen store.new).told (SaysOwn self.old self.new options.now result) }
    {
        if let Some(version) = self.committed {
            return Ok(Committed { version });
        }
        match commit_with_retry(alloc, store, json, options, self) {
            Err(refusal) => Err(refusal),
            Ok(committed) => {
                self.committed = Some(committed.version);
                Ok(committed)
            }
        }
    }
}
