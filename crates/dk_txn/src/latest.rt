//! A commit that begins at the latest version.
ghost use Rattle.std.specs.Prelude.{◌≡◌, ◌<◌, ◌^◌, ◌++◌, Ok, IfOk, OnOk};
ghost use Rattle.dk_store.specs.Seen.{IfTold};
ghost use Rattle.dk_lawful.specs.Kept.{IfBoth, KeepsLawful};
ghost use Rattle.dk_txn.specs.Attempt.{attempt, start};
ghost use Rattle.dk_txn.specs.Commits.{Commits, SaysTransacted};
ghost use Rattle.dk_txn.specs.Effects.{MayCommit};
ghost use Rattle.dk_txn.specs.Transactions.{Concludes, Transacts, outcome};
ghost use Rattle.dk_txn.specs.Refusals.{CommitAtLatestRefuses, TransactionRefuses};

use crate::commit::Committed;
use crate::options::{CommitOptions, Intent};
use crate::transaction::{Transaction, commit_with_retry};
use dk_engine::{JsonHandler, Refusal};
use dk_model::{Action, Commit};
use dk_store::Store;
use std::alloc::{AllocError, Global};

/// Lays actions behind those that are to be committed.
fn put_all(transaction: &mut Transaction, actions: Vec<Action>) -> Result<(), AllocError>
    ensures ok { OnOk result (transaction.new.actions.items ≡ transaction.old.actions.items ++ actions.items) }
    ensures same { transaction.new ≡ record transaction.old { actions = transaction.new.actions; staged = transaction.new.staged } }
{
    for action in actions {
        transaction.put(action)?;
    }
    Ok(())
}

/// The transaction with these actions laid behind those that are to be committed.
fn with_actions(begun: Transaction, actions: Commit) -> Result<Transaction, AllocError>
    ensures laid { IfOk result (λ t. t.actions.items ≡ begun.actions.items ++ actions) }
    ensures same { IfOk result (λ t. t ≡ record begun { actions = t.actions; staged = t.staged }) }
{
    let mut transaction = begun;
    match put_all(&mut transaction, actions.into_vec()) {
        Ok(()) => Ok(transaction),
        Err(AllocError) => Err(AllocError),
    }
}

/// Commits a transaction. The clauses speak of the case that nothing came since it began.
fn commit_fresh(
    alloc: Global,
    store: &mut dyn Store,
    json: &mut dyn JsonHandler,
    options: CommitOptions,
    fresh: &Transaction,
) -> Result<Committed, Refusal>
    requires { fresh.now.from.version < 2 ^ 63 }
    ensures commits { IfTold (seen store.old) (λ events. start events options.limits options.now ≡ Ok fresh.now.from
        → Commits (attempt events options.limits fresh.now.actions.items options.now fresh.now.id) events result (seen store.new).told) }
    ensures concludes { IfTold (seen store.old) (λ events. Concludes (outcome events options.limits fresh.now options.now) events result (seen store.new).told) }
    ensures effects { MayCommit TransactionRefuses (seen store.old) (seen store.new) result }
    ensures lawful { IfTold (seen store.old) (λ events. start events options.limits options.now ≡ Ok fresh.now.from) → KeepsLawful (seen store.old).told (seen store.new).told }
    ensures history { IfTold (seen store.old) (λ events. start events options.limits options.now ≡ Ok fresh.now.from)
        → IfBoth (seen store.old).told (seen store.new).told (SaysTransacted options.now fresh.now.id fresh.now.actions.items result) }
{
    commit_with_retry(alloc, store, json, options, fresh)
}

/// Commits actions as the next version of the table, or as its version 0 (Delta Lake's PROTOCOL.md, "Delta Log Entries"), by a
/// transaction that begins at the latest version.
///
/// `commits` says which event is added, and exactly when each refusal comes, where nobody else comes in between, as is known
/// over a store that tells its events; `lawful` and `history` say the same in the subject's own words: the log stays
/// lawful, and has the commit more that its law has the transaction make, at the answered version. Beside faults of the store and
/// want of memory these refusals add nothing, in this order: `Limit` of `Version` where no version can follow, those of opening the
/// latest version, as [`dk_snapshot::open_at`] names them, `Unsupported` where the table asks for what isn't written, `Invalid` where
/// a rule is broken, `Limit` of `Object` where the text is greater than `limits.object` bytes; and of commits that came in between
/// `WinnersGone`, `Damaged`, `Limit` of `Object`, `Conflict` and `Taken`, as [`Transaction::commit`] says.
pub fn commit_at_latest(
    alloc: Global,
    store: &mut dyn Store,
    json: &mut dyn JsonHandler,
    options: CommitOptions,
    intent: Intent,
    actions: Commit,
) -> Result<Committed, Refusal>
    ensures commits { IfTold (seen store.old) (λ events. Commits (attempt events options.limits actions options.now intent.id) events result (seen store.new).told) }
    ensures effects { MayCommit CommitAtLatestRefuses (seen store.old) (seen store.new) result }
    ensures transacts { Transacts options.limits options.now intent.reads actions intent.id (seen store.old).told result (seen store.new).told }

    // In the subject's own words.
    ensures lawful { KeepsLawful (seen store.old).told (seen store.new).told }
    ensures history { IfBoth (seen store.old).told (seen store.new).told (SaysTransacted options.now intent.id actions result) }
{
    match Transaction::begin_latest(alloc, store, json, options, intent) {
        Err(refusal) => Err(refusal),
        Ok(begun) => match with_actions(begun, actions) {
            Err(AllocError) => Err(Refusal::OutOfMemory),
            Ok(transaction) => commit_fresh(alloc, store, json, options, &transaction),
        },
    }
}
