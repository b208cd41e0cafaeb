//! The commits of a listing, for look-ups by version.
ghost use Rattle.std.specs.Prelude.{◌≡◌, IfOk, option_map};
ghost use Rattle.dk_lawful.specs.Segments.{commit_place, published_at, staged_at};
ghost use Rattle.dk_segment.specs.CommitIndex.{HasCommits, HasRatifiedNames, HasStagedCommits, IsIndexOf, name_ratified_for, has_place};
ghost use Rattle.dk_segment.specs.Walked.{object_place};

use dk_listing::{Catalogued, Named, Staged};
use dk_paths::{LogName, read_staged};
use dk_store::Ratification;
use std::alloc::{AllocError, Global};
use std::collections::{BTreeMap, BTreeSet};

/// The commits of a listing by their versions.
#[derive(Drop)]
pub(crate) struct CommitIndex<'a> {
    /// The versions with a commit in the log's own folder.
    published: BTreeSet<u64>,
    /// The staged commits, each by its version and UUID.
    staged: BTreeSet<(u64, u128)>,
    /// The name under which each version stands ratified.
    ratified: BTreeMap<u64, &'a str>,
}

/// The object that a commit is read from.
#[derive(Clone, Copy)]
pub(crate) enum CommitObject {
    Published,
    Staged { id: u128 },
}

fn published_versions(alloc: Global, log: &[Named]) -> Result<BTreeSet<u64>, AllocError>
    ensures { IfOk result (λ set. HasCommits set log.now) }
{
    let mut set = BTreeSet::new(alloc);
    for named in log {
        if let LogName::Commit { version } = named.name {
            set.insert(version)?;
        }
    }
    Ok(set)
}

fn staged_commits(alloc: Global, staged: &[Staged]) -> Result<BTreeSet<(u64, u128)>, AllocError>
    ensures { IfOk result (λ set. HasStagedCommits set staged.now) }
{
    let mut set = BTreeSet::new(alloc);
    for commit in staged {
        set.insert((commit.version, commit.id))?;
    }
    Ok(set)
}

/// The name of each version's first ratification.
fn ratified_names<'a>(
    alloc: Global,
    ratified: &'a [Ratification],
) -> Result<BTreeMap<u64, &'a str>, AllocError>
    ensures { IfOk result (λ names. HasRatifiedNames names ratified.now) }
{
    let mut names = BTreeMap::new(alloc);
    for ratification in ratified {
        if !names.contains_key(&ratification.version) {
            names.insert(ratification.version, ratification.name.as_str())?;
        }
    }
    Ok(names)
}

/// The commits of this listing.
pub(crate) fn index_commits<'a>(
    alloc: Global,
    listing: &'a Catalogued,
) -> Result<CommitIndex<'a>, AllocError>
    ensures { IfOk result (λ commits. IsIndexOf commits listing.now) }
{
    Ok(CommitIndex {
        published: published_versions(alloc, &listing.log)?,
        staged: staged_commits(alloc, &listing.staged)?,
        ratified: ratified_names(alloc, &listing.ratified)?,
    })
}

fn published_object(commits: &CommitIndex<'_>, version: u64) -> Option<CommitObject>
    ensures { option_map (object_place version) result ≡ published_at (has_place commits.now) version }
{
    if commits.published.contains(&version) {
        Some(CommitObject::Published)
    } else {
        None
    }
}

/// The staged commit that stands ratified for a version, if it is listed.
fn staged_object(commits: &CommitIndex<'_>, version: u64) -> Option<CommitObject>
    ensures { option_map (object_place version) result ≡ staged_at (has_place commits.now) (name_ratified_for commits.now) version }
{
    let Some(name) = commits.ratified.get(&version) else {
        return None;
    };
    let Some((staged_for, id)) = read_staged(*name) else {
        return None;
    };
    if staged_for == version && commits.staged.contains(&(version, id)) {
        Some(CommitObject::Staged { id })
    } else {
        None
    }
}

/// The object that the commit of a version is read from, if it is there.
pub(crate) fn find_object(
    commits: &CommitIndex<'_>,
    version: u64,
    staged_first: bool,
) -> Option<CommitObject>
    ensures { option_map (object_place version) result ≡ commit_place (has_place commits.now) (name_ratified_for commits.now) staged_first version }
{
    let published = published_object(commits, version);
    let staged = staged_object(commits, version);
    if staged_first {
        staged.or(published)
    } else {
        published.or(staged)
    }
}
