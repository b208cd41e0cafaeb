//! The calls of cases.

use crate::cells::{are_same, rows_of};
use crate::fields::{nodes_of, schema_of};
use crate::trouble::Trouble;
use dk_pqmodel::{PqFault, Row, Schema};
use dk_pqread::read_rows;
use dk_pqwrite::{can_be_written, write_rows};
use serde_json::Value;
use std::alloc::Global;

fn member<'a>(case: &'a Value, name: &str) -> Result<&'a Value, Trouble> {
    case.get(name).ok_or(Trouble::Form)
}

fn text_of<'a>(case: &'a Value, name: &str) -> Result<&'a str, Trouble> {
    member(case, name)?.as_str().ok_or(Trouble::Form)
}

fn flag_of(case: &Value, name: &str) -> Result<bool, Trouble> {
    member(case, name)?.as_bool().ok_or(Trouble::Form)
}

fn bytes_of(alloc: Global, case: &Value) -> Result<Vec<u8>, Trouble> {
    match hex::decode(alloc, text_of(case, "file")?) {
        Ok(bytes) => Ok(bytes),
        Err(_) => Err(Trouble::Form),
    }
}

/// Whether the call of a case came as wanted.
pub(crate) fn is_as_wanted(alloc: Global, case: &Value) -> Result<bool, Trouble> {
    match text_of(case, "call")? {
        "read" => {
            let bytes = bytes_of(alloc, case)?;
            is_read(alloc, &bytes, member(case, "fields")?, case)
        }
        "write" => is_written(alloc, case),
        "reread" => is_reread(alloc, case),
        "fits" => fits(alloc, case),
        "schema" => {
            let nodes = nodes_of(alloc, member(case, "fields")?)?;
            Ok(Schema::try_new(nodes).is_some() == flag_of(case, "schema")?)
        }
        "cuts" => are_cuts_refused(alloc, case),
        "bits" => are_turns_answered(alloc, case),
        _ => Err(Trouble::Form),
    }
}

/// Whether the wanted rows are read, or the wanted fault is answered. Schemas and rows are copied on the way.
fn is_read(alloc: Global, bytes: &[u8], fields: &Value, case: &Value) -> Result<bool, Trouble> {
    let schema = schema_of(alloc, fields)?.copy(alloc)?;
    match read_rows(alloc, bytes, &schema) {
        Ok(rows) => match case.get("rows") {
            Some(wanted) => Ok(are_same(&copies_of(alloc, &rows)?, &rows_of(alloc, wanted)?)),
            None => Ok(false),
        },
        Err(fault) => is_fault(alloc, &fault, case),
    }
}

fn copies_of(alloc: Global, rows: &[Row]) -> Result<Vec<Row>, Trouble> {
    let mut copies = Vec::new(alloc);
    for row in rows {
        copies.push(row.copy(alloc)?)?;
    }
    Ok(copies)
}

fn is_fault(alloc: Global, fault: &PqFault, case: &Value) -> Result<bool, Trouble> {
    let text = format!(in alloc; "{fault}")?;
    match case.get("fault") {
        Some(wanted) => Ok(wanted.as_str() == Some(text.as_str())),
        None => Ok(false),
    }
}

/// The file of a case's rows, where they can be written.
fn written(alloc: Global, case: &Value, dictionary: bool) -> Result<Option<Vec<u8>>, Trouble> {
    let schema = schema_of(alloc, member(case, "fields")?)?;
    let rows = rows_of(alloc, member(case, "rows")?)?;
    if !can_be_written(&schema, &rows) {
        return Ok(None);
    }
    let bytes = write_rows(alloc, &schema, &rows, dictionary)?;
    Ok(Some(bytes))
}

/// Whether the rows are written either way and read back, as the wanted bytes where the case has them.
fn is_written(alloc: Global, case: &Value) -> Result<bool, Trouble> {
    for dictionary in [false, true] {
        let Some(bytes) = written(alloc, case, dictionary)? else {
            return Ok(false);
        };
        if !is_read(alloc, &bytes, member(case, "fields")?, case)? {
            return Ok(false);
        }
        if !has_bytes(alloc, &bytes, case, dictionary)? {
            return Ok(false);
        }
    }
    Ok(true)
}

/// Whether these are the wanted bytes, where the case has some for files with or without dictionaries.
fn has_bytes(alloc: Global, bytes: &[u8], case: &Value, dictionary: bool) -> Result<bool, Trouble> {
    let name = if dictionary { "coded" } else { "plain" };
    match case.get(name) {
        Some(wanted) => {
            let text = hex::encode(alloc, bytes)?;
            Ok(wanted.as_str() == Some(text.as_str()))
        }
        None => Ok(true),
    }
}

/// Whether of the rows, written either way, by another schema the wanted rows are read, or the wanted fault is answered.
fn is_reread(alloc: Global, case: &Value) -> Result<bool, Trouble> {
    let answer = member(case, "answer")?;
    for dictionary in [false, true] {
        let Some(bytes) = written(alloc, case, dictionary)? else {
            return Ok(false);
        };
        if !is_read(alloc, &bytes, member(case, "wanted")?, answer)? {
            return Ok(false);
        }
    }
    Ok(true)
}

fn fits(alloc: Global, case: &Value) -> Result<bool, Trouble> {
    let schema = schema_of(alloc, member(case, "fields")?)?;
    let rows = rows_of(alloc, member(case, "rows")?)?;
    Ok(can_be_written(&schema, &rows) == flag_of(case, "fits")?)
}

/// Whether each file that is cut short is answered as the case wants.
fn are_cuts_refused(alloc: Global, case: &Value) -> Result<bool, Trouble> {
    let bytes = bytes_of(alloc, case)?;
    for end in 0..bytes.len() {
        if !is_read(alloc, &bytes[..end], member(case, "fields")?, case)? {
            return Ok(false);
        }
    }
    Ok(true)
}

/// Whether each file with one bit turned is answered at all.
fn are_turns_answered(alloc: Global, case: &Value) -> Result<bool, Trouble> {
    let schema = schema_of(alloc, member(case, "fields")?)?;
    let mut bytes = bytes_of(alloc, case)?;
    for place in 0..bytes.len() {
        for bit in [1, 2, 4, 8, 16, 32, 64, 128] {
            let byte = bytes[place];
            bytes[place] = byte ^ bit;
            if let Err(PqFault::OutOfMemory) = read_rows(alloc, &bytes, &schema) {
                return Ok(false);
            }
            bytes[place] = byte;
        }
    }
    Ok(true)
}
