//! The ratifications that events leave.
ghost use Rattle.std.specs.Prelude.{◌≡◌, ◌≤◌, ◌<◌, ◌^◌, All, IfOk, IfSome, IsTrue, OnOk, filter, map, nat_le, nat_lt};
ghost use Rattle.std.specs.List.{list_all};
ghost use Rattle.std.specs.FinMap.{entries};
ghost use Rattle.dk_store.specs.Standings.{has_version, next_ratified, standings};
ghost use Rattle.dk_store.specs.Views.{newest_first, ratification, told_event};
ghost use Rattle.dk_store.specs.Settled.{next_after, standings_after, named_map};

use crate::event::{Event, Ratification};
use std::alloc::{AllocError, Global};
use std::collections::BTreeMap;

// One above the greatest version ratified by now, after one more event.
fn next_version_after(event: &Event, next: Option<u64>) -> Option<u64>
    requires versions { IsTrue (has_version (told_event event.now)) }
    requires bound { IfSome next (λ n. n ≤ 2 ^ 63) }
    ensures value { result ≡ next_after (told_event event.now) next }
    ensures bound { IfSome result (λ n. n ≤ 2 ^ 63) }
{
    match event {
        Event::Ratified { version, .. } => match next {
            None => Some(*version + 1),
            Some(next) => Some(next.max(*version + 1)),
        },
        _ => next,
    }
}

// One above the greatest version that was ever ratified.
pub(crate) fn next_version(events: &[Event]) -> Option<u64>
    requires { IsTrue (list_all (λ e. has_version (told_event e)) events.now) }
    ensures value { result ≡ next_ratified (newest_first events.now) }
    ensures bound { IfSome result (λ n. n ≤ 2 ^ 63) }
{
    let mut next = None;
    for event in events {
        next = next_version_after(event, next);
    }
    next
}

// The ratifications that stand after one more event.
fn settle<'a>(standing: &mut BTreeMap<u64, &'a str>, event: &'a Event) -> Result<(), AllocError>
    ensures { OnOk result (named_map standing.new.entries ≡ standings_after (named_map standing.old.entries) (told_event event.now)) }
{
    match event {
        Event::Ratified { version, name } => {
            standing.insert(*version, name.as_str())?;
            Ok(())
        }
        Event::Forgotten { upto } => {
            forget(standing, *upto);
            Ok(())
        }
        _ => Ok(()),
    }
}

fn forget(standing: &mut BTreeMap<u64, &str>, upto: u64)
    ensures { standing.new.entries ≡ filter (λ e. nat_lt upto e.0) standing.old.entries }
{
    standing.retain(|version, _| *version > upto);
}

// The ratifications that the events, oldest first, leave.
pub(crate) fn standing<'a>(
    alloc: Global,
    events: &'a [Event],
) -> Result<BTreeMap<u64, &'a str>, AllocError>
    ensures { IfOk result (λ m. named_map m.entries ≡ standings (newest_first events.now)) }
{
    let mut standing = BTreeMap::new(alloc);
    for event in events {
        settle(&mut standing, event)?;
    }
    Ok(standing)
}

// Those from a version on, ascending.
pub(crate) fn standing_from(
    alloc: Global,
    standing: &BTreeMap<u64, &str>,
    from: u64,
) -> Result<Vec<Ratification>, AllocError>
    ensures { IfOk result (λ found. map ratification found.items ≡ filter (λ e. nat_le from e.0) (entries (named_map standing.now.entries))) }
{
    let mut found = Vec::new(alloc);
    for (version, name) in standing {
        if *version >= from {
            found.push(Ratification {
                version: *version,
                name: String::from_str(alloc, *name)?,
            })?;
        }
    }
    Ok(found)
}
