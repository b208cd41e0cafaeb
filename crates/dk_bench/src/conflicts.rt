//! Commits of a text, one beside the others.

use crate::calls::Trouble;
use dk_actjson::read_commit;
use dk_conflicts::{Claims, Reads};
use dk_model::{Action, Commit, Names, Text};
use std::alloc::{AllocError, Global};

/// How many actions each of the commits has that came in between.
const WINNER: usize = 1000;

/// Commits that came in between, and one's own.
#[derive(Drop)]
struct Commits {
    own: Vec<Action>,
    winners: Vec<Commit>,
}

/// The first so many actions are one's own, and each thousand of the others is one that came in between.
fn split(alloc: Global, actions: Vec<Action>, count: usize) -> Result<Commits, AllocError> {
    let mut lines = actions.into_iter();
    let mut own = Vec::new(alloc);
    for action in lines.by_ref().take(count) {
        own.push(action)?;
    }
    let mut winners = Vec::new(alloc);
    let mut winner = Vec::new(alloc);
    for action in lines {
        winner.push(action)?;
        if winner.len() == WINNER {
            winners.push(Commit::new(winner))?;
            winner = Vec::new(alloc);
        }
    }
    Ok(Commits { own, winners })
}

/// The paths of the files that are removed, which were read before.
fn paths_read(alloc: Global, own: &[Action]) -> Result<Reads, AllocError> {
    let mut paths = Vec::new(alloc);
    for action in own {
        if let Action::Remove(file) = action {
            paths.push(Text::from_str(alloc, file.path.as_str())?)?;
        }
    }
    Ok(Reads::Files(Names::new(paths)))
}

/// Looks so many times for the first commit that is in the way of one's own, which has read the files that it removes, and counts the
/// commits before it.
pub(crate) fn find_conflicts(
    alloc: Global,
    bytes: &[u8],
    count: usize,
    times: u32,
) -> Result<u64, Trouble> {
    let actions = read_commit(alloc, bytes)?.into_vec();
    let commits = split(alloc, actions, count)?;
    let reads = paths_read(alloc, &commits.own)?;
    let mut total = 0u64;
    for _ in 0..times {
        let claims = Claims::new(alloc, &reads, &commits.own)?;
        let passed = match claims.conflict(&commits.winners) {
            Some((place, _kind)) => place,
            None => commits.winners.len(),
        };
        total = total.wrapping_add(passed as u64);
    }
    Ok(total)
}
