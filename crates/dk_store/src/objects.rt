//! The objects that events leave.
ghost use Rattle.std.specs.Prelude.{◌≡◌, IfOk, OnOk, map, find, reverse, option_copied, string_bytes};
ghost use Rattle.std.specs.FinMap.{insert, remove};
ghost use Rattle.dk_store.specs.Objects.{content, objects};
ghost use Rattle.dk_store.specs.Views.{told_event, newest_first};
ghost use Rattle.dk_store.specs.Memory.{placed_map, objects_after, is_about, bytes_left};

use crate::event::Event;
use std::alloc::{AllocError, Global};
use std::collections::BTreeMap;

// An object, whose bytes lie in the event that made it.
#[derive(Drop)]
pub(crate) struct Object<'a> {
    pub(crate) bytes: &'a [u8],
    pub(crate) stamp: i64,
}

// Puts an object at its path.
fn place<'a>(
    objects: &mut BTreeMap<String, Object<'a>>,
    path: &String,
    bytes: &'a [u8],
    stamp: i64,
) -> Result<(), AllocError>
    ensures { OnOk result (placed_map objects.new.entries ≡ insert (placed_map objects.old.entries) (string_bytes path.now) (record { bytes = bytes.now; stamp = stamp })) }
{
    let path = path.clone()?;
    objects.insert(path, Object { bytes, stamp })?;
    Ok(())
}

// Takes the object at a path away.
fn displace(objects: &mut BTreeMap<String, Object>, path: &str)
    ensures { placed_map objects.new.entries ≡ remove (placed_map objects.old.entries) path.now }
{
    objects.remove(path);
}

// The objects after one more event.
fn apply<'a>(objects: &mut BTreeMap<String, Object<'a>>, event: &'a Event) -> Result<(), AllocError>
    ensures { OnOk result (placed_map objects.new.entries ≡ objects_after (placed_map objects.old.entries) (told_event event.now)) }
{
    match event {
        Event::Made { path, bytes, stamp } => place(objects, path, bytes, *stamp),
        Event::Over { path, bytes, stamp } => place(objects, path, bytes, *stamp),
        Event::Deleted { path } => {
            displace(objects, path.as_str());
            Ok(())
        }
        Event::Ratified { .. } | Event::Forgotten { .. } => Ok(()),
    }
}

// The objects that the events, oldest first, leave.
pub(crate) fn gather<'a>(
    alloc: Global,
    events: &'a [Event],
) -> Result<BTreeMap<String, Object<'a>>, AllocError>
    ensures { IfOk result (λ m. placed_map m.entries ≡ objects (newest_first events.now)) }
{
    let mut objects = BTreeMap::new(alloc);
    for event in events {
        apply(&mut objects, event)?;
    }
    Ok(objects)
}

// Whether an event is about the object at a path.
fn is_event_about(event: &Event, path: &str) -> bool
    ensures { result ≡ is_about path.now (told_event event.now) }
{
    match event {
        Event::Made { path: own, .. } => own.as_str() == path,
        Event::Over { path: own, .. } => own.as_str() == path,
        Event::Deleted { path: own } => own.as_str() == path,
        Event::Ratified { .. } | Event::Forgotten { .. } => false,
    }
}

// The bytes that an event leaves at its own path.
fn bytes_of(event: &Event) -> Option<&[u8]>
    ensures { option_copied result ≡ bytes_left (told_event event.now) }
{
    match event {
        Event::Made { bytes, .. } | Event::Over { bytes, .. } => Some(bytes),
        Event::Deleted { .. } | Event::Ratified { .. } | Event::Forgotten { .. } => None,
    }
}

// The newest event about the object at a path.
fn newest_about<'a>(events: &'a [Event], path: &str) -> Option<&'a Event>
    ensures { option_copied result ≡ find (λ e. is_about path.now (told_event e)) (reverse events.now) }
{
    events
        .iter()
        .rev()
        .find(|event| is_event_about(event, path))
}

// The bytes of the object at a path, which the newest event about it left.
pub(crate) fn bytes_at<'a>(events: &'a [Event], path: &str) -> Option<&'a [u8]>
    ensures { option_copied result ≡ content (newest_first events.now) path.now }
{
    bytes_of(newest_about(events, path)?)
}
