//! A version that is written as a classic checkpoint and read back, with ample memory.

use dk_actjson::append_action;
use dk_ckread::read_classic;
use dk_ckwrite::classic;
use dk_engine::{Limits, Refusal, Which};
use dk_handlers::{PlainParquet, SerdeJson};
use dk_model::Action;
use dk_snapshot::{OpenOptions, Snapshot, open_at, usual_choice};
use dk_store::{MemStore, Store, StoreError};
use std::alloc::{AllocError, Global};
use std::process::Abort;
use std::test::Fail;

const PATH_0: &str = "_delta_log/00000000000000000000.json";

const PATH_1: &str = "_delta_log/00000000000000000001.json";

const CHECKPOINT: &str = "_delta_log/00000000000000000001.checkpoint.parquet";

const FIRST: &str = r#"{"protocol":{"minReaderVersion":1,"minWriterVersion":2}}
{"metaData":{"configuration":{"k":"v"},"createdTime":7,"description":"what","format":{"options":{"o":"w"},"provider":"parquet"},"id":"t","name":"n","partitionColumns":["p","q"],"schemaString":"{}"}}
{"add":{"baseRowId":3,"clusteringProvider":"z","dataChange":true,"defaultRowCommitVersion":4,"modificationTime":5,"partitionValues":{"p":"1","q":null},"path":"a","size":1,"stats":"{\"numRecords\":2}","tags":{"t":"u"}}}
{"add":{"dataChange":true,"modificationTime":5,"partitionValues":{"p":"","q":"2"},"path":"b","size":1}}
{"add":{"dataChange":true,"modificationTime":5,"partitionValues":{},"path":"c","size":1}}
{"txn":{"appId":"s","lastUpdated":9,"version":8}}
{"domainMetadata":{"configuration":"c","domain":"d","removed":false}}
{"domainMetadata":{"configuration":"c","domain":"e","removed":false}}
"#;

/// A removal that is told at the moment of opening, one that isn't any more, and a domain that goes.
const SECOND: &str = r#"{"remove":{"dataChange":true,"deletionTimestamp":9500000000,"path":"b"}}
{"remove":{"dataChange":true,"deletionTimestamp":9395200000,"path":"c"}}
{"domainMetadata":{"configuration":"c","domain":"e","removed":true}}
"#;

const NOW: i64 = 10_000_000_000;

const WANTED: &str = r#"{"protocol":{"minReaderVersion":1,"minWriterVersion":2}}
{"metaData":{"configuration":{"k":"v"},"createdTime":7,"description":"what","format":{"options":{"o":"w"},"provider":"parquet"},"id":"t","name":"n","partitionColumns":["p","q"],"schemaString":"{}"}}
{"add":{"baseRowId":3,"clusteringProvider":"z","dataChange":false,"defaultRowCommitVersion":4,"modificationTime":5,"partitionValues":{"p":"1","q":null},"path":"a","size":1,"stats":"{\"numRecords\":2}","tags":{"t":"u"}}}
{"remove":{"dataChange":false,"deletionTimestamp":9500000000,"path":"b"}}
{"txn":{"appId":"s","lastUpdated":9,"version":8}}
{"domainMetadata":{"configuration":"c","domain":"d","removed":false}}
"#;

fn store_of(alloc: Global) -> Result<MemStore, StoreError> {
    let mut store = MemStore::new(alloc);
    let _ = store.put_new(PATH_0, FIRST.as_bytes(), 0)?;
    let _ = store.put_new(PATH_1, SECOND.as_bytes(), 0)?;
    Ok(store)
}

fn lines(alloc: Global, actions: &[Action]) -> Result<Vec<u8>, AllocError> {
    let mut lines = Vec::new(alloc);
    for action in actions {
        append_action(alloc, &mut lines, action)?;
    }
    Ok(lines)
}

/// What is read of a checkpoint of these bytes.
fn read_back(alloc: Global, store: &mut MemStore, bytes: &[u8]) -> Result<Vec<Action>, Refusal> {
    let _ = store.put_new(CHECKPOINT, bytes, 0)?;
    read_classic(
        alloc,
        store,
        &mut PlainParquet::new(),
        CHECKPOINT,
        Some(bytes.len() as u64),
        Limits::usual().object,
    )
}

#[test]
fn a_version_is_written_as_a_checkpoint_and_read_back(rt: HostRuntime) -> Result<(), Fail> {
    let alloc = rt.alloc();
    let mut parquet = PlainParquet::new();
    let options = OpenOptions {
        limits: Limits::usual(),
        now: NOW,
        choice: usual_choice(),
    };
    let Ok(mut store) = store_of(alloc) else {
        return Err(Fail::from(AllocError));
    };
    let opened = open_at(alloc, &mut store, &mut SerdeJson::new(), None, options);
    let Ok(
        Snapshot {
            version,
            state,
            cut,
            ..
        },
    ) = opened
    else {
        panic!(rt; "version 1 opens");
    };
    let written = classic(alloc, &mut parquet, &Limits::usual(), &state, version, cut);
    let Ok(bytes) = written else {
        panic!(rt; "its checkpoint is written");
    };
    let Ok(actions) = read_back(alloc, &mut store, &bytes) else {
        panic!(rt; "its checkpoint is read");
    };
    assert!(rt; lines(alloc, &actions)?.as_slice() == WANTED.as_bytes());
    let limits = Limits {
        rows: 10,
        ..Limits::usual()
    };
    match classic(alloc, &mut parquet, &limits, &state, version, cut) {
        Err(Refusal::Limit { which, .. }) => assert!(rt; matches!(which, Which::Rows)),
        _ => panic!(rt; "the rows weigh more than 10"),
    }
    Ok(())
}
