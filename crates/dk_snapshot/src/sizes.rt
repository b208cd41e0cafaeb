//! The sizes that a listing shows, for look-ups by path.
ghost use Rattle.std.specs.Prelude.{◌≡◌, IfOk, map, option_copied};
ghost use Rattle.dk_store.specs.Views.{listed};
ghost use Rattle.dk_store.specs.Listing.{behind};
ghost use Rattle.dk_paths.specs.Places.{staged_front};
ghost use Rattle.dk_listing.specs.Sizes.{listed_size};
ghost use Rattle.dk_snapshot.specs.Sizes.{HasSizes, AreSizesOf, known_in_log, known_size, size_under};
ghost use Rattle.dk_snapshot.specs.Steps.{step_path};

use crate::steps::step_path;
use dk_lawful::Step;
use dk_listing::{Catalogued, Named, Staged};
use std::alloc::{AllocError, Global};
use std::collections::BTreeMap;

/// The sizes that a listing shows, each under the name of its object.
#[derive(Drop)]
struct Sizes<'a> {
    /// In the log's own folder.
    log: BTreeMap<&'a str, u64>,
    /// In the folder of staged commits.
    staged: BTreeMap<&'a str, u64>,
}

fn log_sizes<'a>(alloc: Global, log: &'a [Named]) -> Result<BTreeMap<&'a str, u64>, AllocError>
    ensures { IfOk result (λ sizes. HasSizes sizes (map (λ named. listed named.entry) log.now)) }
{
    let mut sizes = BTreeMap::new(alloc);
    for named in log {
        let name = named.entry.name.as_str();
        if !sizes.contains_key(&name) {
            sizes.insert(name, named.entry.size)?;
        }
    }
    Ok(sizes)
}

fn staged_sizes<'a>(
    alloc: Global,
    staged: &'a [Staged],
) -> Result<BTreeMap<&'a str, u64>, AllocError>
    ensures { IfOk result (λ sizes. HasSizes sizes (map (λ commit. listed commit.entry) staged.now)) }
{
    let mut sizes = BTreeMap::new(alloc);
    for commit in staged {
        let name = commit.entry.name.as_str();
        if !sizes.contains_key(&name) {
            sizes.insert(name, commit.entry.size)?;
        }
    }
    Ok(sizes)
}

/// The sizes that this listing shows.
fn sizes_of<'a>(alloc: Global, listing: &'a Catalogued) -> Result<Sizes<'a>, AllocError>
    ensures { IfOk result (λ sizes. AreSizesOf sizes listing.now) }
{
    Ok(Sizes {
        log: log_sizes(alloc, &listing.log)?,
        staged: staged_sizes(alloc, &listing.staged)?,
    })
}

/// What stands behind a front, if that stands there.
fn behind<'a>(front: &str, text: &'a str) -> Option<&'a str>
    ensures { option_copied result ≡ behind front.now text.now }
{
    text.strip_prefix(front)
}

pub(crate) fn size_under<'a>(sizes: &BTreeMap<&'a str, u64>, name: &'a str) -> Option<u64>
    ensures { result ≡ size_under sizes.now name.now }
{
    sizes.get(&name).copied()
}

fn size_in_log<'a>(sizes: &Sizes<'a>, rest: &'a str) -> Option<u64>
    ensures { result ≡ known_in_log sizes.now rest.now (behind staged_front rest.now) }
{
    match behind("_staged_commits/", rest) {
        Some(name) => size_under(&sizes.staged, name),
        None => size_under(&sizes.log, rest),
    }
}

/// The listed size of the object at a path.
fn known_size<'a>(sizes: &Sizes<'a>, path: &'a str) -> Option<u64>
    ensures { result ≡ known_size sizes.now path.now }
{
    match behind("_delta_log/", path) {
        Some(rest) => size_in_log(sizes, rest),
        None => None,
    }
}

/// The size that is known of each step's object.
fn known_sizes<'a>(
    alloc: Global,
    sizes: &Sizes<'a>,
    steps: &'a [Step],
) -> Result<Vec<Option<u64>>, AllocError>
    ensures { IfOk result (λ found. found.items ≡ map (λ step. known_size sizes.now (step_path step)) steps.now) }
{
    let mut found = Vec::with_capacity(alloc, steps.len())?;
    for step in steps {
        found.push(known_size(sizes, step_path(step)))?;
    }
    Ok(found)
}

/// The size in bytes of each step's object, as the listing shows it, in the order of the steps; None for an object that isn't
/// listed. It is refused by want of memory alone.
pub fn step_sizes<'a>(
    alloc: Global,
    listing: &'a Catalogued,
    steps: &'a [Step],
) -> Result<Vec<Option<u64>>, AllocError>
    ensures { IfOk result (λ found. found.items ≡ map (λ step. listed_size listing.now (step_path step)) steps.now) }
{
    let sizes = sizes_of(alloc, listing)?;
    known_sizes(alloc, &sizes, steps)
}
