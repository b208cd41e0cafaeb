//! A store in memory that is surveyed, opened, and read commit by commit, with ample memory.

use dk_engine::{Limits, Refusal};
use dk_handlers::SerdeJson;
use dk_listing::Catalogued;
use dk_segment::find_commits;
use dk_snapshot::{
    Measured, OpenOptions, Snapshot, oldest_path, open_at, open_listed, read_step, step_sizes,
    survey, unreadable, usual_choice,
};
use dk_store::{MemStore, Store, StoreError};
use std::alloc::{AllocError, Global};
use std::process::Abort;
use std::test::Fail;

const PATH_0: &str = "_delta_log/00000000000000000000.json";

const PATH_1: &str = "_delta_log/00000000000000000001.json";

const TABLE: &str = r#"{"protocol":{"minReaderVersion":1,"minWriterVersion":2}}
{"metaData":{"configuration":{},"format":{"options":{},"provider":"parquet"},"id":"t","partitionColumns":[],"schemaString":"{}"}}
"#;

const ADD_A: &str =
    r#"{"add":{"dataChange":true,"modificationTime":5,"partitionValues":{},"path":"a","size":1}}
"#;

fn store_of(alloc: Global) -> Result<MemStore, StoreError> {
    let mut store = MemStore::new(alloc);
    let _ = store.put_new(PATH_0, TABLE.as_bytes(), 0)?;
    let _ = store.put_new(PATH_1, ADD_A.as_bytes(), 0)?;
    Ok(store)
}

/// Version 1 of the table, which has one file.
fn compare(
    rt: &impl Abort,
    alloc: Global,
    opened: Result<Snapshot, Refusal>,
) -> Result<(), AllocError> {
    let Ok(snapshot) = opened else {
        panic!(rt; "version 1 opens");
    };
    let steps = snapshot.segment.steps.as_slice();
    assert_eq!(rt; snapshot.version, 1);
    assert_eq!(rt; snapshot.cut, 0);
    assert_eq!(rt; steps.len(), 2);
    assert_eq!(rt; oldest_path(&snapshot.segment), PATH_0);
    assert_eq!(rt; snapshot.state.files.len(), 1);
    let protocol = snapshot.state.protocol.as_ref();
    if let Some(protocol) = protocol {
        assert!(rt; unreadable(alloc, protocol, &snapshot.state.files)?.is_none());
    }
    Ok(())
}

/// The last commit alone, where the listing finds it, with its size, as it is read.
fn compare_last(
    rt: &impl Abort,
    alloc: Global,
    store: &mut MemStore,
    listing: &Catalogued,
) -> Result<(), AllocError> {
    let Ok(steps) = find_commits(alloc, listing, 1, 1) else {
        panic!(rt; "the last commit is found");
    };
    let sizes = step_sizes(alloc, listing, &steps)?;
    assert!(rt; sizes.as_slice() == [Some(ADD_A.len() as u64)].as_slice());
    let mut json = SerdeJson::new();
    let measured = Measured {
        size: Some(ADD_A.len() as u64),
        limit: 1000,
    };
    match read_step(alloc, store, &mut json, &steps[0], measured) {
        Ok(commit) => assert_eq!(rt; commit.as_slice().len(), 1),
        Err(_) => panic!(rt; "the last commit is read"),
    }
    Ok(())
}

#[test]
fn a_store_is_surveyed_opened_and_read_commit_by_commit(rt: HostRuntime) -> Result<(), Fail> {
    let alloc = rt.alloc();
    let mut json = SerdeJson::new();
    let options = OpenOptions {
        limits: Limits::usual(),
        now: 604_800_000,
        choice: usual_choice(),
    };
    let Ok(mut store) = store_of(alloc) else {
        return Err(Fail::from(AllocError));
    };
    let opened = open_at(alloc, &mut store, &mut json, None, options);
    compare(&rt, alloc, opened)?;
    let Ok(listing) = survey(alloc, &mut store) else {
        return Err(Fail::from(AllocError));
    };
    let opened = open_listed(alloc, &mut store, &mut json, &listing, Some(1), options);
    compare(&rt, alloc, opened)?;
    compare_last(&rt, alloc, &mut store, &listing)?;
    Ok(())
}
