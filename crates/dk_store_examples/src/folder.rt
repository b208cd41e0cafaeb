//! The real folder: it answers as a store in memory does, refuses what is no file in every call, and is locked.
use crate::calls::{WANTED, all_said};
use dk_dir::DirStore;
use dk_store::{Store, StoreError};
use std::fs;
use std::test::Fail;
use std::time::{SystemTime, UNIX_EPOCH};

// A new folder, by its path.
fn new_folder(rt: &HostRuntime) -> Result<String, Fail> {
    let now = SystemTime::now(rt)?.duration_since(UNIX_EPOCH)?;
    let temp = std::env::temp_dir(rt)?;
    let path = format!(in rt.alloc(); "{}/deltak-{}", temp.as_path().as_str(), now.as_nanos())?;
    fs::create_dir(rt, path.as_str())?;
    Ok(path)
}

fn is_failure<T: Drop>(answer: Result<T, StoreError>) -> bool {
    matches!(answer, Err(StoreError::Failed))
}

#[test]
fn a_folder_answers_as_a_store_in_memory(rt: HostRuntime) -> Result<(), Fail> {
    let path = new_folder(&rt)?;
    let mut store = DirStore::new(rt, path.clone()?);
    assert_eq!(rt; all_said(rt.alloc(), &mut store)?.as_str(), WANTED);
    fs::remove_dir_all(&rt, path.as_str())?;
    Ok(())
}

// Which calls fail at a path.
fn failing(store: &mut DirStore<HostRuntime>, path: &str) -> [bool; 4] {
    [
        is_failure(store.get(path)),
        is_failure(store.put_new(path, b"x", 1)),
        is_failure(store.put_over(path, b"x", 1)),
        is_failure(store.delete(path)),
    ]
}

#[test]
fn a_folder_is_no_object_in_any_call(rt: HostRuntime) -> Result<(), Fail> {
    let path = new_folder(&rt)?;
    let mut store = DirStore::new(rt, path.clone()?);
    fs::create_dir(&rt, format!(in rt.alloc(); "{path}/a.json")?.as_str())?;
    assert_eq!(rt; failing(&mut store, "a.json"), [true; 4]);
    assert_eq!(rt; store.list("", "")?.len(), 0);
    assert_eq!(rt; failing(&mut store, "b.json"), [false; 4]);
    fs::remove_dir_all(&rt, path.as_str())?;
    Ok(())
}

#[test]
fn a_folder_that_is_held_is_a_fault(rt: HostRuntime) -> Result<(), Fail> {
    let path = new_folder(&rt)?;
    let mut reader = DirStore::reading(rt, path.clone()?);
    {
        let mut writer = DirStore::new(rt, path.clone()?);
        assert!(rt; writer.put_over("a", b"one", 1).is_ok());
        assert!(rt; is_failure(reader.get("a")));
    }
    assert!(rt; reader.get("a")?.is_some());
    assert!(rt; is_failure(reader.delete("a")));
    let mut other = DirStore::reading(rt, path.clone()?);
    assert_eq!(rt; other.list("", "")?.len(), 1);
    fs::remove_dir_all(&rt, path.as_str())?;
    let mut gone = DirStore::new(rt, path);
    assert!(rt; is_failure(gone.get("a")));
    Ok(())
}
