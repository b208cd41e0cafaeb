//! The calls of a store in a fixed order, and what it says to them.
use dk_store::{MemStore, Put, Ratify, Store, StoreError};
use std::alloc::{AllocError, Global};
use std::test::Fail;

fn put_said(answer: Result<Put, StoreError>) -> &'static str {
    match answer {
        Ok(Put::Made) => "made ",
        Ok(Put::Exists) => "exists ",
        Err(_) => "failed ",
    }
}

fn done_said(answer: Result<(), StoreError>) -> &'static str {
    match answer {
        Ok(()) => "done ",
        Err(_) => "failed ",
    }
}

// A few objects: made, made again, written over, deleted and deleted again.
fn write_objects<S: Store>(store: &mut S, said: &mut String) -> Result<(), AllocError> {
    for (path, text) in [
        ("a", "one"),
        ("a", "two"),
        ("_delta_log/x/b", ""),
        ("c", "gone"),
    ] {
        said.push_str(put_said(store.put_new(path, text.as_bytes(), 5)))?;
    }
    said.push_str(done_said(store.put_over("a", b"longer", 6)))?;
    said.push_str(done_said(store.delete("c")))?;
    said.push_str(done_said(store.delete("c")))
}

// How many bytes stand at each path.
fn read_objects<S: Store>(alloc: Global, store: &mut S) -> Result<String, AllocError> {
    let mut said = String::new(alloc);
    for path in ["a", "_delta_log/x/b", "c", "../a", "a/b", ""] {
        let line = match store.get(path) {
            Ok(Some(bytes)) => format!(in alloc; "{path} {}, ", bytes.len())?,
            Ok(None) => format!(in alloc; "no {path}, ")?,
            Err(error) => format!(in alloc; "{error}, ")?,
        };
        said.push_str(line.as_str())?;
    }
    Ok(said)
}

// The names and sizes that a store lists.
fn listed<S: Store>(alloc: Global, store: &mut S) -> Result<String, StoreError> {
    let mut said = String::new(alloc);
    for (folder, from) in [
        ("", ""),
        ("_delta_log/x", ""),
        ("_delta_log/x", "c"),
        ("none", ""),
    ] {
        for entry in store.list(folder, from)? {
            said.push_str(format!(in alloc; "{} {}, ", entry.name, entry.size)?.as_str())?;
        }
    }
    Ok(said)
}

fn ratify_said(alloc: Global, answer: Result<Ratify, StoreError>) -> Result<String, AllocError> {
    match answer {
        Ok(Ratify::Made) => String::from_str(alloc, "made "),
        Ok(Ratify::Lost { next }) => format!(in alloc; "next {next} "),
        Err(error) => format!(in alloc; "{error} "),
    }
}

// The ratifications that stand.
fn standing<S: Store>(alloc: Global, store: &mut S) -> Result<String, StoreError> {
    let mut said = String::new(alloc);
    for found in store.ratified(0)? {
        said.push_str(format!(in alloc; "{}={} ", found.version, found.name)?.as_str())?;
    }
    Ok(said)
}

// Ratifications that are made, lost and forgotten.
fn catalogue<S: Store>(alloc: Global, store: &mut S) -> Result<String, StoreError> {
    let mut said = String::new(alloc);
    for (version, name) in [(5, "x"), (5, "y"), (6, "z")] {
        said.push_str(ratify_said(alloc, store.ratify(version, name))?.as_str())?;
    }
    for upto in [4, 5, 9] {
        said.push_str(done_said(store.forget(upto)))?;
        said.push_str(standing(alloc, store)?.as_str())?;
    }
    for (version, name) in [(1, "v"), (7, "w")] {
        said.push_str(ratify_said(alloc, store.ratify(version, name))?.as_str())?;
    }
    said.push_str(standing(alloc, store)?.as_str())?;
    Ok(said)
}

// All that a store says, a line for each kind of call.
pub(crate) fn all_said<S: Store>(alloc: Global, store: &mut S) -> Result<String, StoreError> {
    let mut said = String::new(alloc);
    write_objects(store, &mut said)?;
    for more in [
        read_objects(alloc, store)?,
        listed(alloc, store)?,
        catalogue(alloc, store)?,
    ] {
        said.push('\n')?;
        said.push_str(more.as_str())?;
    }
    Ok(said)
}

// What each store has to say.
pub(crate) const WANTED: &str = "made exists made made done done done \n\
    a 6, _delta_log/x/b 0, no c, no ../a, no a/b, no , \n\
    a 6, b 0, \n\
    made next 6 made done 5=x 6=z done 6=z done next 7 made 7=w ";

#[test]
fn a_store_in_memory_answers(rt: HostRuntime) -> Result<(), Fail> {
    let alloc = rt.alloc();
    let mut store = MemStore::new(alloc);
    assert_eq!(rt; all_said(alloc, &mut store)?.as_str(), WANTED);
    Ok(())
}
