//! A store over a folder.
ghost use Rattle.std.specs.Prelude.{◌≡◌, ◌≤◌, ◌<◌, ◌+◌, ◌-◌, ◌^◌, ℕ, All, IfOk, min, Ok, Err};
ghost use Rattle.dk_store.specs.Causes.{Rose};

use crate::catalogue::{forget, ratified, ratify};
use crate::disk::{Disk, list, read};
use crate::paths::{is_object_path, join};
use crate::writes::{make, remove, replace, store_error};
use dk_store::{Entry, Put, Ratification, Ratify, Store, StoreError};
use std::fs::File;
use std::io::ErrorKind;
use std::{fs, io};

// What the store's lock is for.
#[derive(Clone, Copy)]
enum Access {
    Write,
    Read,
}

/// A store over a folder of the file system. It tells no events.
///
/// Its first call opens the folder and asks for a lock on it, without waiting; the lock is held until the store is
/// dropped. Where either fails, that call is a counted fault, and the next call tries again.
#[derive(Drop)]
pub struct DirStore<R: Disk> {
    rt: R,
    folder: String,
    access: Access,
    held: Option<File>,
    faults: u64,
    clashes: u64,
}

impl<R: Disk> DirStore<R> {
    ghost use Rattle.std.specs.Prelude.{◌≡◌, ◌≤◌, ◌<◌, ◌+◌, ◌-◌, ◌^◌, ℕ, All, IfOk, min, Ok, Err};
    ghost use Rattle.dk_store.specs.Causes.{Rose};
    ghost use Rattle.dk_dir.specs.Counts.{dir_faults, dir_clashes};

    /// A store over a folder, which it asks for alone. It opens nothing yet, and takes no memory.
    pub fn new(rt: R, folder: String) -> Self
        ensures faults { dir_faults result ≡ 0 }
        ensures clashes { dir_clashes result ≡ 0 }
    {
        DirStore::with(rt, folder, Access::Write)
    }

    /// A store over a folder that only reads it, beside others that do. Each call that writes is a counted fault.
    pub fn reading(rt: R, folder: String) -> Self
        ensures faults { dir_faults result ≡ 0 }
        ensures clashes { dir_clashes result ≡ 0 }
    {
        DirStore::with(rt, folder, Access::Read)
    }

    fn with(rt: R, folder: String, access: Access) -> Self
        ensures faults { dir_faults result ≡ 0 }
        ensures clashes { dir_clashes result ≡ 0 }
    {
        DirStore {
            rt,
            folder,
            access,
            held: None,
            faults: 0,
            clashes: 0,
        }
    }

    // Opens the folder and takes its lock, where that isn't done yet.
    fn hold(&mut self) -> io::Result<()>
        ensures faults { self.new.faults ≡ self.old.faults }
        ensures clashes { self.new.clashes ≡ self.old.clashes }
    {
        if self.held.is_none() {
            self.held = Some(locked(&self.rt, self.folder.as_str(), self.access)?);
        }
        Ok(())
    }

    // The same, for a call that writes.
    fn hold_to_write(&mut self) -> io::Result<()>
        ensures faults { self.new.faults ≡ self.old.faults }
        ensures clashes { self.new.clashes ≡ self.old.clashes }
    {
        if let Access::Read = self.access {
            return Err(io::Error::from(ErrorKind::PermissionDenied));
        }
        self.hold()
    }

    // An answer, with its fault counted.
    fn counted<T: Drop>(&mut self, answer: Result<T, StoreError>) -> Result<T, StoreError>
        ensures same { result ≡ answer }
        ensures later { self.old.faults ≤ self.new.faults }
        ensures failed { answer ≡ Err StoreError.Failed → Rose self.old.faults self.new.faults }
        ensures clashes { self.new.clashes ≡ self.old.clashes }
    {
        if let Err(StoreError::Failed) = &answer {
            self.faults = self.faults.saturating_add(1);
        }
        answer
    }

    // One more clash.
    fn clash(&mut self)
        ensures faults { self.new.faults ≡ self.old.faults }
        ensures later { self.old.clashes ≤ self.new.clashes }
        ensures clashes { self.new.clashes ≡ min (self.old.clashes + 1) (2 ^ 64 - 1) }
    {
        self.clashes = self.clashes.saturating_add(1);
    }

    fn try_list(&mut self, folder: &str, from: &str) -> Result<Vec<Entry>, StoreError>
        ensures faults { self.new.faults ≡ self.old.faults }
        ensures clashes { self.new.clashes ≡ self.old.clashes }
    {
        self.hold().map_err(store_error)?;
        let alloc = self.rt.alloc();
        if !folder.is_empty() && !is_object_path(folder) {
            return Ok(Vec::new(alloc));
        }
        let path = join(alloc, self.folder.as_str(), folder)?;
        list(&self.rt, path.as_str(), from).map_err(store_error)
    }

    fn try_get(&mut self, path: &str) -> Result<Option<Vec<u8>>, StoreError>
        ensures faults { self.new.faults ≡ self.old.faults }
        ensures clashes { self.new.clashes ≡ self.old.clashes }
    {
        self.hold().map_err(store_error)?;
        if !is_object_path(path) {
            return Ok(None);
        }
        let path = join(self.rt.alloc(), self.folder.as_str(), path)?;
        read(&self.rt, path.as_str()).map_err(store_error)
    }

    fn try_put_new(&mut self, path: &str, bytes: &[u8], now: i64) -> Result<Put, StoreError>
        ensures faults { self.new.faults ≡ self.old.faults }
        ensures clashes { self.new.clashes ≡ self.old.clashes }
    {
        self.hold_to_write().map_err(store_error)?;
        if !is_object_path(path) {
            return Err(StoreError::Failed);
        }
        make(&self.rt, self.folder.as_str(), path, now, bytes)
    }

    fn try_put_over(&mut self, path: &str, bytes: &[u8], now: i64) -> Result<(), StoreError>
        ensures faults { self.new.faults ≡ self.old.faults }
        ensures clashes { self.new.clashes ≡ self.old.clashes }
    {
        self.hold_to_write().map_err(store_error)?;
        if !is_object_path(path) {
            return Err(StoreError::Failed);
        }
        replace(&self.rt, self.folder.as_str(), path, now, bytes)
    }

    fn try_delete(&mut self, path: &str) -> Result<(), StoreError>
        ensures faults { self.new.faults ≡ self.old.faults }
        ensures clashes { self.new.clashes ≡ self.old.clashes }
    {
        self.hold_to_write().map_err(store_error)?;
        if !is_object_path(path) {
            return Ok(());
        }
        remove(&self.rt, self.folder.as_str(), path)
    }

    fn try_ratify(&mut self, version: u64, name: &str) -> Result<Ratify, StoreError>
        requires { version < 2 ^ 63 }
        ensures next { (next : ℕ) → result ≡ Ok (Ratify.Lost next) → next ≤ 2 ^ 63 }
        ensures faults { self.new.faults ≡ self.old.faults }
        ensures clashes { self.new.clashes ≡ self.old.clashes }
    {
        self.hold_to_write().map_err(store_error)?;
        ratify(&self.rt, self.folder.as_str(), version, name)
    }

    fn try_ratified(&mut self, from: u64) -> Result<Vec<Ratification>, StoreError>
        ensures versions { IfOk result (λ found. All (λ r. r.version < 2 ^ 63) found.items) }
        ensures faults { self.new.faults ≡ self.old.faults }
        ensures clashes { self.new.clashes ≡ self.old.clashes }
    {
        self.hold().map_err(store_error)?;
        ratified(&self.rt, self.folder.as_str(), from).map_err(store_error)
    }

    fn try_forget(&mut self, upto: u64) -> Result<(), StoreError>
        ensures faults { self.new.faults ≡ self.old.faults }
        ensures clashes { self.new.clashes ≡ self.old.clashes }
    {
        self.hold_to_write().map_err(store_error)?;
        forget(&self.rt, self.folder.as_str(), upto)
    }
}

// Opens a folder and takes its lock, without waiting.
fn locked<R: Disk>(rt: &R, folder: &str, access: Access) -> io::Result<File> {
    if !fs::metadata(rt, folder)?.is_dir() {
        return Err(io::Error::from(ErrorKind::NotADirectory));
    }
    let file = File::open(rt, folder)?;
    match access {
        Access::Write => file.try_lock()?,
        Access::Read => file.try_lock_shared()?,
    }
    Ok(file)
}

impl<R: Disk> Store for DirStore<R> {
    ghost use Rattle.dk_dir.specs.Counts.{dir_seen};

    ghost seen = { λ s. dir_seen s };

    fn list(&mut self, folder: &str, from: &str) -> Result<Vec<Entry>, StoreError> {
        let answer = self.try_list(folder, from);
        self.counted(answer)
    }

    fn get(&mut self, path: &str) -> Result<Option<Vec<u8>>, StoreError> {
        let answer = self.try_get(path);
        self.counted(answer)
    }

    fn put_new(&mut self, path: &str, bytes: &[u8], now: i64) -> Result<Put, StoreError> {
        let answer = self.try_put_new(path, bytes, now);
        if let Ok(Put::Exists) = &answer {
            self.clash();
        }
        self.counted(answer)
    }

    fn put_over(&mut self, path: &str, bytes: &[u8], now: i64) -> Result<(), StoreError> {
        let answer = self.try_put_over(path, bytes, now);
        self.counted(answer)
    }

    fn delete(&mut self, path: &str) -> Result<(), StoreError> {
        let answer = self.try_delete(path);
        self.counted(answer)
    }

    fn ratify(&mut self, version: u64, name: &str) -> Result<Ratify, StoreError> {
        let answer = self.try_ratify(version, name);
        if let Ok(Ratify::Lost { .. }) = &answer {
            self.clash();
        }
        self.counted(answer)
    }

    fn ratified(&mut self, from: u64) -> Result<Vec<Ratification>, StoreError> {
        let answer = self.try_ratified(from);
        self.counted(answer)
    }

    fn forget(&mut self, upto: u64) -> Result<(), StoreError> {
        let answer = self.try_forget(upto);
        self.counted(answer)
    }
}
