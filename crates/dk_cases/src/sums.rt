//! Sums of commits.

use crate::actions::text_of;
use crate::states::commit_at;
use crate::trouble::Trouble;
use dk_actjson::write_actions;
use dk_compact::summary;
use dk_model::Commit;
use serde_json::Value;
use std::alloc::Global;

fn commits_at(alloc: Global, row: &Value) -> Result<Vec<Commit>, Trouble> {
    let mut commits = Vec::new(alloc);
    commits.push(commit_at(alloc, row, "given")?)?;
    commits.push(commit_at(alloc, row, "then")?)?;
    Ok(commits)
}

/// The lines of the sum of two commits.
pub(crate) fn sum_answer(alloc: Global, row: &Value) -> Result<String, Trouble> {
    let commits = commits_at(alloc, row)?;
    let actions = summary(alloc, &commits)?;
    text_of(write_actions(alloc, &actions)?)
}
