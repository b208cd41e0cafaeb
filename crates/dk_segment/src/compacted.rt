//! The compacted files of a listing, for look-ups by version.
ghost use Rattle.std.specs.Prelude.{◌≡◌, All, IfOk, OnOk, Some, true};
ghost use Rattle.dk_listing.specs.Newest.{is_rising, later};
ghost use Rattle.dk_segment.specs.Places.{AddsReach, AreReached, HasAllowed, HasReaches, WidensReach, compacted_of};

use dk_listing::Named;
use dk_paths::LogName;
use std::alloc::{AllocError, Global};
use std::collections::BTreeMap;

/// Under each version the last one of the compacted file that begins there and reaches furthest without passing the asked
/// version.
pub(crate) type Reaches = BTreeMap<u64, u64>;

/// What a compacted file covers that doesn't pass the asked version.
fn compacted_of(name: &LogName, asked: u64) -> Option<(u64, u64)>
    ensures { result ≡ compacted_of asked name.now }
{
    match *name {
        LogName::Compacted { first, last } if last <= asked => Some((first, last)),
        _ => None,
    }
}

/// The greater of a version and one before it, if there is one.
fn furthest(before: Option<u64>, last: u64) -> u64
    ensures { Some result ≡ later before (Some last) }
{
    match before {
        Some(before) => before.max(last),
        None => last,
    }
}

/// A compacted file that covers these versions is added.
fn widen(reaches: &mut Reaches, first: u64, last: u64) -> Result<(), AllocError>
    ensures { OnOk result (WidensReach reaches.old reaches.new first last) }
{
    let furthest = furthest(reaches.get(&first).copied(), last);
    reaches.insert(first, furthest)?;
    Ok(())
}

/// One more name is added.
fn add_reach(reaches: &mut Reaches, name: &LogName, asked: u64) -> Result<(), AllocError>
    ensures { OnOk result (AddsReach reaches.old reaches.new name.now asked) }
{
    match compacted_of(name, asked) {
        Some((first, last)) => widen(reaches, first, last),
        None => Ok(()),
    }
}

/// All compacted files that don't pass the asked version.
fn reaches_of(alloc: Global, log: &[Named], asked: u64) -> Result<Reaches, AllocError>
    ensures { IfOk result (λ reaches. HasReaches reaches log.now asked) }
{
    let mut reaches = BTreeMap::new(alloc);
    for named in log {
        add_reach(&mut reaches, &named.name, asked)?;
    }
    Ok(reaches)
}

/// The compacted files that may stand for their commits, where the choice allows them.
pub(crate) fn index_compacted(
    alloc: Global,
    log: &[Named],
    allowed: bool,
    asked: u64,
) -> Result<Reaches, AllocError>
    requires rising { All (λ named. is_rising named.name ≡ true) log.now }
    ensures has { IfOk result (λ reaches. HasAllowed reaches log.now allowed asked) }
    ensures reached { IfOk result (λ reaches. AreReached reaches asked) }
{
    if allowed {
        let reaches = reaches_of(alloc, log, asked)?;
        Ok(reaches)
    } else {
        Ok(BTreeMap::new(alloc))
    }
}
