//! The sum of commits.

ghost use Rattle.std.specs.Prelude.{◌≡◌, IfOk};
ghost use Rattle.dk_lawful.specs.Agree.{SumsCommits};
ghost use Rattle.dk_compact.specs.Summary.{summary_of};
ghost use Rattle.dk_compact.specs.Taken.{taken_commits};

use crate::newest::Newest;
use dk_model::{Action, Commit};
use std::alloc::{AllocError, Global};

fn newest_of<'a>(alloc: Global, commits: &'a [Commit]) -> Result<Newest<'a>, AllocError>
    ensures { IfOk result (λ newest. newest ≡ taken_commits commits.now) }
{
    let mut newest = Newest::new(alloc);
    'commits: for commit in commits {
        newest.take_all(commit.as_slice())?;
    }
    Ok(newest)
}

/// The last action on each key of these commits, which stand oldest first: protocol, metadata, each application, each
/// domain, each path. None of them says that it changes data. First stands the protocol, then the metadata, the
/// applications and the domains in the byte order of their names, and the adds and removes in that of their paths.
/// Nothing else stands there, and removed domains and the removals of files stay, however old. So the actions lead each
/// state to where the commits lead it (Delta Lake's PROTOCOL.md, "Log Compaction Files"). `Err` says that memory was
/// wanted and not had.
pub fn summary(alloc: Global, commits: &[Commit]) -> Result<Vec<Action>, AllocError>
    ensures exact { IfOk result (λ actions. actions.items ≡ summary_of commits.now) }
    ensures sums { IfOk result (λ actions. SumsCommits actions.items commits.now) }
{
    let newest = newest_of(alloc, commits)?;
    let actions = newest.into_actions(alloc)?;
    Ok(actions)
}
