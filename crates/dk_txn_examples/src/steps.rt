//! The steps of a case, and how each is tried.

use crate::answers::answer_text;
use crate::cases::{AT_LATEST, Case, FAILING, IN_BETWEEN, Read, STAGED_NAME, Step, TRANSACTIONS};
use crate::contended::Contended;
use dk_conflicts::Reads;
use dk_engine::{Limits, Refusal};
use dk_handlers::SerdeJson;
use dk_model::{Commit, Names, Text};
use dk_store::{Fault, MemStore, Store};
use dk_txn::{CommitOptions, Intent, Transaction, commit_at_latest};
use std::alloc::{AllocError, Global};
use std::process::Abort;
use std::test::Fail;

fn reads_of(alloc: Global, read: Read) -> Result<Reads, Fail> {
    match read {
        Read::Nothing => Ok(Reads::Nothing),
        Read::Table => Ok(Reads::Table),
        Read::FileA => {
            let mut names = Vec::new(alloc);
            names.push(Text::from_str(alloc, "a")?)?;
            Ok(Reads::Files(Names::new(names)))
        }
    }
}

/// Puts all actions of a commit, as far as memory suffices.
fn put_all(transaction: &mut Transaction, commit: Commit) {
    for action in commit.into_vec() {
        let _ = transaction.put(action);
    }
}

/// The usual limits, and the moment of each call.
fn usual_options() -> CommitOptions {
    CommitOptions {
        limits: Limits::usual(),
        now: 1000,
    }
}

/// The transaction of a case, begun at the latest version.
fn begun(alloc: Global, store: &mut Contended, reads: Reads) -> Result<Transaction, Refusal> {
    let mut json = SerdeJson::new();
    let intent = Intent { reads, id: 32 };
    Transaction::begin_latest(alloc, store, &mut json, usual_options(), intent)
}

/// The transaction of a case with its actions; none where it isn't begun.
fn begin(alloc: Global, store: &mut Contended, case: &Case) -> Result<Option<Transaction>, Fail> {
    let reads = reads_of(alloc, case.read)?;
    let commit = dk_actjson::read_commit(alloc, case.own.as_bytes())?;
    match begun(alloc, store, reads) {
        Ok(transaction) => {
            let mut transaction = transaction;
            put_all(&mut transaction, commit);
            Ok(Some(transaction))
        }
        Err(_) => Ok(None),
    }
}

fn check(
    alloc: Global,
    store: &mut Contended,
    transaction: &mut Option<Transaction>,
) -> Result<u64, Refusal> {
    let mut json = SerdeJson::new();
    match transaction {
        Some(transaction) => transaction.check(alloc, store, &mut json, usual_options()),
        None => Err(Refusal::NotBegun),
    }
}

fn commit(
    alloc: Global,
    store: &mut Contended,
    transaction: &mut Option<Transaction>,
) -> Result<u64, Refusal> {
    let mut json = SerdeJson::new();
    match transaction {
        Some(transaction) => {
            match transaction.commit(alloc, store, &mut json, usual_options()) {
                Ok(committed) => Ok(committed.version),
                Err(refusal) => Err(refusal),
            }
        }
        None => Err(Refusal::NotBegun),
    }
}

/// Begins, puts and commits in one call.
fn commit_whole(
    alloc: Global,
    store: &mut Contended,
    reads: Reads,
    own: Commit,
    object: u64,
) -> Result<u64, Refusal> {
    let mut json = SerdeJson::new();
    let usual = Limits::usual();
    let options = CommitOptions {
        limits: Limits { object, ..usual },
        now: 1000,
    };
    let intent = Intent { reads, id: 32 };
    match commit_at_latest(alloc, store, &mut json, options, intent, own) {
        Ok(committed) => Ok(committed.version),
        Err(refusal) => Err(refusal),
    }
}

/// Whether the object of this path has exactly this text; an empty text is that of none.
fn holds(store: &mut Contended, path: &str, text: &str) -> bool {
    match store.get(path) {
        Ok(Some(bytes)) => bytes.as_slice() == text.as_bytes(),
        Ok(None) => text.is_empty(),
        Err(_) => false,
    }
}

/// Puts a text that another writer puts at the path of the next commit.
fn come_first(alloc: Global, store: &mut Contended, text: &str) -> Result<(), AllocError> {
    let mut bytes = Vec::new(alloc);
    bytes.extend_from_slice(text.as_bytes())?;
    store.others.push(bytes)?;
    Ok(())
}

fn plan(alloc: Global, store: &mut Contended, fault: Fault) -> Result<(), AllocError> {
    let mut faults = Vec::new(alloc);
    faults.push(fault)?;
    store.inner.plan(faults);
    Ok(())
}

/// What a step answers, and what it is to answer.
fn try_step(
    rt: &impl Abort,
    alloc: Global,
    store: &mut Contended,
    transaction: &mut Option<Transaction>,
    case: &Case,
    step: &Step,
) -> Result<(), Fail> {
    let name = case.name;
    match step {
        Step::Begin => *transaction = begin(alloc, store, case)?,
        Step::Put(path, text) => {
            let _ = store.inner.put_new(path, text.as_bytes(), 0);
        }
        Step::ComeFirst(text) => come_first(alloc, store, text)?,
        Step::Ratify => {
            let _ = store.inner.ratify(1, STAGED_NAME);
        }
        Step::Delete(path) => {
            let _ = store.inner.delete(path);
        }
        Step::Fail(call, how) => plan(
            alloc,
            store,
            Fault {
                call: *call,
                nth: 1,
                how: *how,
            },
        )?,
        Step::Check(wanted) => {
            let answer = answer_text(alloc, &check(alloc, store, transaction))?;
            assert_eq!(rt; answer.as_str(), *wanted, "{name}");
        }
        Step::Commit(wanted) => {
            let answer = answer_text(alloc, &commit(alloc, store, transaction))?;
            assert_eq!(rt; answer.as_str(), *wanted, "{name}");
        }
        Step::Whole(object, wanted) => {
            let reads = reads_of(alloc, case.read)?;
            let own = dk_actjson::read_commit(alloc, case.own.as_bytes())?;
            let answer = answer_text(alloc, &commit_whole(alloc, store, reads, own, *object))?;
            assert_eq!(rt; answer.as_str(), *wanted, "{name}");
        }
        Step::Holds(path, text) => {
            let same = holds(store, path, text);
            assert!(rt; same, "{name}");
        }
        Step::Clashes(count) => assert_eq!(rt; store.clashes, *count, "{name}"),
    }
    Ok(())
}

fn try_case(rt: &impl Abort, alloc: Global, case: &Case) -> Result<(), Fail> {
    let mut store = Contended {
        inner: MemStore::new(alloc),
        others: Vec::new(alloc),
        clashes: 0,
    };
    let mut transaction = None;
    for step in case.steps {
        try_step(rt, alloc, &mut store, &mut transaction, case, step)?;
    }
    Ok(())
}

#[test]
fn winners_are_in_the_way_as_they_conflict(rt: HostRuntime) -> Result<(), Fail> {
    for case in &TRANSACTIONS {
        try_case(&rt, rt.alloc(), case)?;
    }
    Ok(())
}

#[test]
fn a_commit_comes_after_the_latest_version_that_can_be_opened(rt: HostRuntime) -> Result<(), Fail> {
    for case in &AT_LATEST {
        try_case(&rt, rt.alloc(), case)?;
    }
    Ok(())
}

#[test]
fn a_store_fails_and_answers_are_lost(rt: HostRuntime) -> Result<(), Fail> {
    for case in &FAILING {
        try_case(&rt, rt.alloc(), case)?;
    }
    Ok(())
}

#[test]
fn others_come_first_once_twice_and_thrice(rt: HostRuntime) -> Result<(), Fail> {
    for case in &IN_BETWEEN {
        try_case(&rt, rt.alloc(), case)?;
    }
    Ok(())
}
