//! What a row has.

use crate::trouble::Trouble;
use dk_actjson::action_of;
use dk_model::{Action, Metadata, Protocol};
use serde_json::Value;
use std::alloc::Global;

/// The value under a key.
pub(crate) fn value_at<'a>(row: &'a Value, key: &str) -> Result<&'a Value, Trouble> {
    match row.get(key) {
        Some(value) => Ok(value),
        None => Err(Trouble::Row),
    }
}

/// The text under a key.
pub(crate) fn text_at<'a>(row: &'a Value, key: &str) -> Result<&'a str, Trouble> {
    match value_at(row, key)?.as_str() {
        Some(text) => Ok(text),
        None => Err(Trouble::Row),
    }
}

/// The whole number under a key.
pub(crate) fn number_at(row: &Value, key: &str) -> Result<u64, Trouble> {
    match value_at(row, key)?.as_u64() {
        Some(number) => Ok(number),
        None => Err(Trouble::Row),
    }
}

/// The action that a value is.
pub(crate) fn action_in(alloc: Global, value: &Value) -> Result<Action, Trouble> {
    match action_of(alloc, value) {
        Ok(Some(action)) => Ok(action),
        _ => Err(Trouble::Row),
    }
}

/// The protocol that a value is.
pub(crate) fn protocol_in(alloc: Global, value: &Value) -> Result<Protocol, Trouble> {
    match action_in(alloc, value)? {
        Action::Protocol(protocol) => Ok(protocol),
        _ => Err(Trouble::Row),
    }
}

/// The metadata that a value is.
pub(crate) fn metadata_in(alloc: Global, value: &Value) -> Result<Metadata, Trouble> {
    match action_in(alloc, value)? {
        Action::Metadata(metadata) => Ok(metadata),
        _ => Err(Trouble::Row),
    }
}
