//! Texts of commits, and values of actions.

use crate::row::{text_at, value_at};
use crate::trouble::Trouble;
use dk_actjson::{
    ActionFault, action_of, append_action, append_own_info, append_remove, read_commit,
    write_actions,
};
use dk_model::{Action, Commit, CommitInfo, LineFault};
use serde_json::Value;
use std::alloc::{AllocError, Global};

/// Bytes as a text.
pub(crate) fn text_of(bytes: Vec<u8>) -> Result<String, Trouble> {
    match String::from_utf8(bytes) {
        Ok(text) => Ok(text),
        Err(_) => Err(Trouble::Row),
    }
}

fn info_words(alloc: Global, info: &CommitInfo) -> Result<String, AllocError> {
    let time = info.in_commit_timestamp.unwrap_or(-1);
    match &info.txn_id {
        Some(id) => format!(in alloc; "info {time} {}", id.as_str()),
        None => format!(in alloc; "info {time}"),
    }
}

/// What the text of an action doesn't tell.
fn words_of(alloc: Global, action: &Action) -> Result<String, AllocError> {
    match action {
        Action::Info(info) => info_words(alloc, info),
        Action::Cdc => String::from_str(alloc, "cdc"),
        Action::Add(file) if file.vector => String::from_str(alloc, "vector"),
        _ => String::from_str(alloc, ""),
    }
}

/// The text of a commit, and behind it what that doesn't tell of its actions.
fn written(alloc: Global, commit: &Commit) -> Result<String, Trouble> {
    let mut text = text_of(write_actions(alloc, commit.as_slice())?)?;
    for action in commit.as_slice() {
        text.push_str(words_of(alloc, action)?.as_str())?;
    }
    Ok(text)
}

/// The actions of bytes, copied and written, or the first line that means nothing.
fn reread(alloc: Global, bytes: &[u8]) -> Result<String, Trouble> {
    match read_commit(alloc, bytes) {
        Ok(commit) => written(alloc, &commit.copy(alloc)?),
        Err(LineFault::Bad { line }) => Ok(format!(in alloc; "line {line}")?),
        Err(LineFault::OutOfMemory) => Err(Trouble::OutOfMemory),
    }
}

pub(crate) fn text_answer(alloc: Global, text: &str) -> Result<String, Trouble> {
    reread(alloc, text.as_bytes())
}

pub(crate) fn hex_answer(alloc: Global, digits: &str) -> Result<String, Trouble> {
    match hex::decode(alloc, digits) {
        Ok(bytes) => reread(alloc, &bytes),
        Err(_) => Err(Trouble::Row),
    }
}

/// The line that a transaction of this id writes at this time, and what is read of it.
pub(crate) fn own_answer(alloc: Global, row: &Value) -> Result<String, Trouble> {
    let mut line = Vec::new(alloc);
    let Some(time) = value_at(row, "time")?.as_i64() else {
        return Err(Trouble::Row);
    };
    append_own_info(alloc, &mut line, text_at(row, "given")?, time)?;
    let read = reread(alloc, &line)?;
    let mut text = text_of(line)?;
    text.push_str(read.as_str())?;
    Ok(text)
}

/// The line of an action, by the call for its kind where it is a remove.
fn line_of(alloc: Global, action: &Action) -> Result<Vec<u8>, AllocError> {
    let mut line = Vec::new(alloc);
    match action {
        Action::Remove(file) => append_remove(alloc, &mut line, file)?,
        action => append_action(alloc, &mut line, action)?,
    }
    Ok(line)
}

fn line_answer(alloc: Global, action: &Action) -> Result<String, Trouble> {
    text_of(line_of(alloc, action)?)
}

/// The line of the action that a value is.
pub(crate) fn value_answer(alloc: Global, value: &Value) -> Result<String, Trouble> {
    match action_of(alloc, value) {
        Ok(Some(action)) => line_answer(alloc, &action),
        Ok(None) => Ok(String::from_str(alloc, "nothing")?),
        Err(ActionFault::Bad) => Ok(String::from_str(alloc, "no action")?),
        Err(ActionFault::OutOfMemory) => Err(Trouble::OutOfMemory),
    }
}
