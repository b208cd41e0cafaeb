//! States that commits lead to.

use crate::actions::text_of;
use crate::row::text_at;
use crate::trouble::Trouble;
use dk_actjson::{
    append_add, append_application, append_domain, append_metadata, append_protocol,
    append_tombstone, read_commit,
};
use dk_model::{Commit, TableState};
use serde_json::Value;
use std::alloc::{AllocError, Global};

fn append_heads(alloc: Global, out: &mut Vec<u8>, state: &TableState) -> Result<(), AllocError> {
    if let Some(protocol) = &state.protocol {
        append_protocol(alloc, out, protocol)?;
    }
    if let Some(metadata) = &state.metadata {
        append_metadata(alloc, out, metadata)?;
    }
    Ok(())
}

fn append_files(alloc: Global, out: &mut Vec<u8>, state: &TableState) -> Result<(), AllocError> {
    for (_path, file) in state.files.iter() {
        append_add(alloc, out, file)?;
    }
    for (path, time) in state.tombstones.iter() {
        append_tombstone(alloc, out, path, *time)?;
    }
    Ok(())
}

fn append_names(alloc: Global, out: &mut Vec<u8>, state: &TableState) -> Result<(), AllocError> {
    for (app_id, application) in state.applications.iter() {
        append_application(alloc, out, app_id, application)?;
    }
    for (domain, configuration) in state.domains.iter() {
        append_domain(alloc, out, domain, configuration.as_str())?;
    }
    Ok(())
}

/// The lines of all that a state has.
fn shown(alloc: Global, state: &TableState) -> Result<String, Trouble> {
    let mut out = Vec::new(alloc);
    append_heads(alloc, &mut out, state)?;
    append_files(alloc, &mut out, state)?;
    append_names(alloc, &mut out, state)?;
    text_of(out)
}

pub(crate) fn commit_at(alloc: Global, row: &Value, key: &str) -> Result<Commit, Trouble> {
    match read_commit(alloc, text_at(row, key)?.as_bytes()) {
        Ok(commit) => Ok(commit),
        Err(_) => Err(Trouble::Row),
    }
}

fn apply_at(alloc: Global, state: &mut TableState, row: &Value, key: &str) -> Result<(), Trouble> {
    let commit = commit_at(alloc, row, key)?;
    Ok(state.apply(alloc, &commit)?)
}

fn absorb_at(alloc: Global, state: &mut TableState, row: &Value, key: &str) -> Result<(), Trouble> {
    let commit = commit_at(alloc, row, key)?;
    Ok(state.absorb(alloc, commit)?)
}

fn fill(alloc: Global, state: &mut TableState, row: &Value) -> Result<(), Trouble> {
    apply_at(alloc, state, row, "given")?;
    absorb_at(alloc, state, row, "then")
}

fn shown_copy(alloc: Global, state: &TableState) -> Result<String, Trouble> {
    let copy = state.copy(alloc)?;
    shown(alloc, &copy)
}

/// The lines of a copy of the state that two commits lead to, the second of which is given up.
pub(crate) fn state_answer(alloc: Global, row: &Value) -> Result<String, Trouble> {
    let mut state = TableState::new(alloc);
    fill(alloc, &mut state, row)?;
    shown_copy(alloc, &state)
}
