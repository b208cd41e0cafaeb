//! A row of the file.

use anyhow::{Context, Result};
use serde_json::Value;
use std::alloc::Global;

/// The limit of an object in bytes, where a row has no other.
const LIMIT: u64 = 1_048_576;

/// A checkpoint, and what is wanted of it.
#[derive(Drop)]
pub(crate) struct Row {
    pub name: String,
    /// The bytes of its object, or none where there is no object.
    pub file: Option<Vec<u8>>,
    /// The limit of an object in bytes.
    pub limit: u64,
    pub wanted: String,
}

/// The row of a line.
pub(crate) fn row_of(alloc: Global, line: &str) -> Result<Row> {
    let value = Value::from_str(alloc, line).ok().context("no JSON")?;
    let name = text_at(&value, "name")?;
    let wanted = text_at(&value, "wanted")?;
    Ok(Row {
        name: String::from_str(alloc, name)?,
        file: file_of(alloc, &value)?,
        limit: limit_of(&value)?,
        wanted: String::from_str(alloc, wanted)?,
    })
}

/// The text under a key.
fn text_at<'a>(row: &'a Value, key: &str) -> Result<&'a str> {
    row.get(key)
        .context("a part is absent")?
        .as_str()
        .context("a text")
}

fn file_of(alloc: Global, row: &Value) -> Result<Option<Vec<u8>>> {
    if row.get("file").is_none() {
        return Ok(None);
    }
    let bytes = hex::decode(alloc, text_at(row, "file")?)?;
    Ok(Some(bytes))
}

fn limit_of(row: &Value) -> Result<u64> {
    match row.get("limit") {
        Some(limit) => limit.as_u64().context("a limit"),
        None => Ok(LIMIT),
    }
}
