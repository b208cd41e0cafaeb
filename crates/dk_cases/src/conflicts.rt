//! Which commit is in the way.

use crate::row::{action_in, value_at};
use crate::trouble::Trouble;
use dk_conflicts::{Claims, Reads};
use dk_model::{Commit, Names, Text};
use serde_json::Value;
use std::alloc::{AllocError, Global};

/// The values of a list.
fn items(list: &Value) -> Result<&[Value], Trouble> {
    match list.as_array() {
        Some(items) => Ok(items.as_slice()),
        None => Err(Trouble::Row),
    }
}

/// The commit of a list of actions.
fn commit_in(alloc: Global, list: &Value) -> Result<Commit, Trouble> {
    let mut actions = Vec::new(alloc);
    for value in items(list)? {
        actions.push(action_in(alloc, value)?)?;
    }
    Ok(Commit::new(actions))
}

fn commits_in(alloc: Global, list: &Value) -> Result<Vec<Commit>, Trouble> {
    let mut commits = Vec::new(alloc);
    for value in items(list)? {
        commits.push(commit_in(alloc, value)?)?;
    }
    Ok(commits)
}

fn names_in(alloc: Global, list: &Value) -> Result<Names, Trouble> {
    let mut names = Vec::new(alloc);
    for value in items(list)? {
        let Some(name) = value.as_str() else {
            return Err(Trouble::Row);
        };
        names.push(Text::from_str(alloc, name)?)?;
    }
    Ok(Names::new(names))
}

/// What was read: `nothing`, `table`, or a list of paths.
fn reads_in(alloc: Global, value: &Value) -> Result<Reads, Trouble> {
    match value.as_str() {
        Some("nothing") => Ok(Reads::Nothing),
        Some("table") => Ok(Reads::Table),
        Some(_) => Err(Trouble::Row),
        None => Ok(Reads::Files(names_in(alloc, value)?)),
    }
}

/// The place and the kind of the first of the winners that is in the way.
fn conflict(
    alloc: Global,
    reads: &Reads,
    own: &Commit,
    winners: &[Commit],
) -> Result<String, AllocError> {
    let claims = Claims::new(alloc, reads, own.as_slice())?;
    match claims.conflict(winners) {
        Some((place, kind)) => format!(in alloc; "{place} {}", kind.name()),
        None => String::from_str(alloc, "none"),
    }
}

/// The conflict of a row.
pub(crate) fn conflict_answer(alloc: Global, row: &Value) -> Result<String, Trouble> {
    let reads = reads_in(alloc, value_at(row, "reads")?)?;
    let own = commit_in(alloc, value_at(row, "own")?)?;
    let winners = commits_in(alloc, value_at(row, "winners")?)?;
    Ok(conflict(alloc, &reads, &own, winners.as_slice())?)
}
