//! Which calls a plan makes fail, and what the store has taken then.
ghost use Rattle.std.specs.Prelude.{◌≡◌, IfOk, IsTrue};
ghost use Rattle.dk_store.specs.Standings.{has_version};
ghost use Rattle.dk_store.specs.Views.{told_event};

use dk_store::{Call, Event, Fault, How, MemStore, Store, StoreError};
use std::alloc::{AllocError, Global};
use std::test::Fail;

fn made(alloc: Global, path: &str) -> Result<Event, AllocError>
    ensures { IfOk result (λ e. IsTrue (has_version (told_event e))) }
{
    Ok(Event::Made {
        path: String::from_str(alloc, path)?,
        bytes: b"old".to_vec(alloc)?,
        stamp: -4,
    })
}

// A store that has taken one event.
fn begun(alloc: Global) -> Result<MemStore, AllocError> {
    let mut events = Vec::new(alloc);
    events.push(made(alloc, "b")?)?;
    MemStore::from_events(alloc, events)
}

// The store's events, one after another.
fn told(alloc: Global, store: &MemStore) -> Result<String, AllocError> {
    let mut told = String::new(alloc);
    for event in store.events() {
        let line = match event {
            Event::Made { path, bytes, stamp } => {
                format!(in alloc; "+{path} {} {stamp}, ", bytes.len())?
            }
            Event::Over { path, bytes, stamp } => {
                format!(in alloc; "!{path} {} {stamp}, ", bytes.len())?
            }
            Event::Deleted { path } => format!(in alloc; "-{path}, ")?,
            Event::Ratified { version, name } => format!(in alloc; "{version}={name}, ")?,
            Event::Forgotten { upto } => format!(in alloc; "forget {upto}, ")?,
        };
        told.push_str(line.as_str())?;
    }
    Ok(told)
}

fn is_failure<T: Drop>(answer: Result<T, StoreError>) -> bool {
    matches!(answer, Err(StoreError::Failed))
}

// Each writing call once: which of them fail.
fn write_all(store: &mut MemStore) -> [bool; 5] {
    [
        is_failure(store.put_new("a", b"new", 1)),
        is_failure(store.put_over("b", b"over", 2)),
        is_failure(store.delete("b")),
        is_failure(store.ratify(3, "c")),
        is_failure(store.forget(3)),
    ]
}

// That the call at this place fails alone, or none where there is none.
fn only(place: usize) -> [bool; 5] {
    [place == 0, place == 1, place == 2, place == 3, place == 4]
}

const ALL: &str = "+b 3 -4, +a 3 1, !b 4 2, -b, 3=c, forget 3, ";

#[test]
fn a_failing_call_leaves_what_was_planned(rt: HostRuntime) -> Result<(), Fail> {
    let alloc = rt.alloc();
    let not_made = "+b 3 -4, !b 4 2, -b, 3=c, forget 3, ";
    let torn = How::Torn { kept: 1 };
    let cases = [
        (Call::Any, 9, How::Before, 9, ALL),
        (Call::PutNew, 1, How::Before, 0, not_made),
        (Call::PutNew, 1, How::After, 0, ALL),
        (Call::PutNew, 1, torn, 0, not_made),
        (
            Call::PutOver,
            1,
            How::Before,
            1,
            "+b 3 -4, +a 3 1, -b, 3=c, forget 3, ",
        ),
        (Call::PutOver, 1, How::After, 1, ALL),
        (
            Call::PutOver,
            1,
            torn,
            1,
            "+b 3 -4, +a 3 1, !b 1 2, -b, 3=c, forget 3, ",
        ),
        (Call::PutOver, 1, How::Torn { kept: 9 }, 1, ALL),
        (
            Call::PutOver,
            1,
            How::Lost,
            1,
            "+b 3 -4, +a 3 1, -b, 3=c, forget 3, ",
        ),
        (
            Call::Delete,
            1,
            How::Lost,
            2,
            "+b 3 -4, +a 3 1, !b 4 2, 3=c, forget 3, ",
        ),
        (Call::Delete, 1, How::After, 2, ALL),
        (Call::Ratify, 1, How::After, 3, ALL),
        (
            Call::Ratify,
            1,
            How::Before,
            3,
            "+b 3 -4, +a 3 1, !b 4 2, -b, forget 3, ",
        ),
        (
            Call::Any,
            5,
            How::Before,
            4,
            "+b 3 -4, +a 3 1, !b 4 2, -b, 3=c, ",
        ),
        (Call::Forget, 1, How::After, 4, ALL),
    ];
    for (call, nth, how, failing, want) in cases {
        let mut store = begun(alloc)?;
        store.plan(vec![in alloc; Fault { call, nth, how }]?);
        assert_eq!(rt; write_all(&mut store), only(failing));
        assert_eq!(rt; told(alloc, &store)?.as_str(), want);
    }
    Ok(())
}

// Which of the next calls fail: two times list and get, in turn.
fn read_all(store: &mut MemStore) -> [bool; 4] {
    [
        is_failure(store.list("", "")),
        is_failure(store.get("b")),
        is_failure(store.list("", "")),
        is_failure(store.get("b")),
    ]
}

#[test]
fn each_kind_of_call_counts_its_own(rt: HostRuntime) -> Result<(), Fail> {
    let alloc = rt.alloc();
    let mut store = begun(alloc)?;
    let none = [false; 4];
    let cases = [
        (Call::Get, 1, How::Before, [false, true, false, false]),
        (Call::Get, 2, How::After, [false, false, false, true]),
        (
            Call::List,
            2,
            How::Torn { kept: 1 },
            [false, false, true, false],
        ),
        (Call::Any, 3, How::Lost, [false, false, true, false]),
        (Call::Any, 0, How::Before, none),
        (Call::PutNew, 1, How::Before, none),
        (Call::Get, 1, How::Stop, [false, true, true, true]),
    ];
    for (call, nth, how, want) in cases {
        store.plan(vec![in alloc; Fault { call, nth, how }]?);
        assert_eq!(rt; read_all(&mut store), want);
    }
    // A stop outlasts a new plan, until the store is mended.
    store.plan(Vec::new(alloc));
    assert_eq!(rt; read_all(&mut store), [true; 4]);
    store.mend();
    assert_eq!(rt; read_all(&mut store), none);
    assert_eq!(rt; told(alloc, &store)?.as_str(), "+b 3 -4, ");
    Ok(())
}
