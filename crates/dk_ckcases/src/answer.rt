//! What the checkpoint of a row means.

use crate::row::Row;
use anyhow::Result;
use dk_actjson::append_action;
use dk_ckread::read_classic;
use dk_engine::Refusal;
use dk_handlers::PlainParquet;
use dk_model::Action;
use dk_store::{MemStore, Store, StoreError};
use std::alloc::{AllocError, Global};

/// Where the checkpoint stands.
const PATH: &str = "_delta_log/00000000000000000007.checkpoint.parquet";

/// The line of what an action's own line doesn't tell: that a deletion vector stands beside its file.
const VECTOR: &[u8] = b"vector\n";

/// What the row's file means as a checkpoint: the lines of its actions, or why it means none.
pub(crate) fn answer(alloc: Global, row: &Row) -> Result<String> {
    let text = match read(alloc, row) {
        Ok(actions) => lines_of(alloc, &actions)?,
        Err(refusal) => format!(in alloc; "{refusal}")?,
    };
    Ok(text)
}

/// Reads the checkpoint from a store in memory.
fn read(alloc: Global, row: &Row) -> Result<Vec<Action>, Refusal> {
    let mut store = MemStore::new(alloc);
    let size = put_file(&mut store, row)?;
    read_classic(
        alloc,
        &mut store,
        &mut PlainParquet::new(),
        PATH,
        size,
        row.limit,
    )
}

/// Puts the file into the store, where there is one, and answers its size.
fn put_file(store: &mut MemStore, row: &Row) -> Result<Option<u64>, StoreError> {
    match &row.file {
        Some(bytes) => {
            let _ = store.put_new(PATH, bytes, 0)?;
            Ok(Some(bytes.len() as u64))
        }
        None => Ok(None),
    }
}

/// The lines of actions.
fn lines_of(alloc: Global, actions: &[Action]) -> Result<String> {
    let mut lines = Vec::new(alloc);
    for action in actions {
        append_lines(alloc, &mut lines, action)?;
    }
    let text = String::from_utf8(lines)?;
    Ok(text)
}

fn append_lines(alloc: Global, lines: &mut Vec<u8>, action: &Action) -> Result<(), AllocError> {
    append_action(alloc, lines, action)?;
    match action {
        Action::Add(file) if file.vector => lines.extend_from_slice(VECTOR),
        _ => Ok(()),
    }
}
