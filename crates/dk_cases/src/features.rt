//! Which tables are read and written.

use crate::row::{metadata_in, protocol_in, text_at, value_at};
use crate::trouble::Trouble;
use dk_features::{
    can_read, can_write, has_form, is_in_force, keeps_features, unread_name, unwritten_name,
};
use dk_model::{Metadata, Protocol, TableState, Text};
use serde_json::Value;
use std::alloc::{AllocError, Global};

/// A name of what is in the way, or `none`.
fn or_none(name: &Option<Text>) -> &str {
    match name {
        Some(name) => name.as_str(),
        None => "none",
    }
}

/// What is in the way of reading and of writing, and whether the protocol has a form in which one is written.
fn names(alloc: Global, protocol: &Protocol, metadata: &Metadata) -> Result<String, AllocError> {
    let unread = unread_name(alloc, protocol)?;
    let unwritten = unwritten_name(alloc, protocol, metadata)?;
    let form = has_form(alloc, protocol)?;
    let (unread, unwritten) = (or_none(&unread), or_none(&unwritten));
    format!(in alloc; "{unread}, {unwritten}, {form}")
}

/// Whether a state of these two is written.
fn is_written(alloc: Global, protocol: Protocol, metadata: Metadata) -> bool {
    let mut state = TableState::new(alloc);
    state.protocol = Some(protocol);
    state.metadata = Some(metadata);
    can_write(alloc, &state).is_ok()
}

/// Whether the table of a row is read and written, what is in the way of both, and whether its protocol has a form in which one
/// is written.
pub(crate) fn support_answer(alloc: Global, row: &Value) -> Result<String, Trouble> {
    let protocol = protocol_in(alloc, row)?;
    let metadata = metadata_in(alloc, value_at(row, "table")?)?;
    let names = names(alloc, &protocol, &metadata)?;
    let reads = can_read(&protocol).is_ok();
    let writes = is_written(alloc, protocol, metadata);
    Ok(format!(in alloc; "{reads} {writes} {names}")?)
}

/// Whether a feature is in force.
pub(crate) fn force_answer(alloc: Global, row: &Value) -> Result<String, Trouble> {
    let protocol = protocol_in(alloc, row)?;
    let is = is_in_force(&protocol, text_at(row, "given")?);
    Ok(format!(in alloc; "{is}")?)
}

fn keeps(alloc: Global, before: &Protocol, after: &Protocol) -> Result<String, AllocError> {
    let keeps = keeps_features(alloc, before, after)?;
    format!(in alloc; "{keeps}")
}

/// Whether the features of a protocol stay in force in another one.
pub(crate) fn keeps_answer(alloc: Global, row: &Value) -> Result<String, Trouble> {
    let before = protocol_in(alloc, row)?;
    let after = protocol_in(alloc, value_at(row, "then")?)?;
    Ok(keeps(alloc, &before, &after)?)
}
