//! The program's store: the table's folder, at the runtime that main is given.

use dk_dir::DirStore;
use dk_store::{Entry, Put, Ratification, Ratify, Store, StoreError};

/// The table's folder as a store that is boxed: a box takes no type that leaves its runtime open.
#[derive(Drop)]
pub struct Folder {
    store: DirStore<HostRuntime>,
}

impl Folder {
    /// A folder that is read and written, and that no other program holds.
    pub fn writing(rt: HostRuntime, path: String) -> Folder {
        Folder {
            store: DirStore::new(rt, path),
        }
    }

    /// A folder that is only read, beside other readers.
    pub fn reading(rt: HostRuntime, path: String) -> Folder {
        Folder {
            store: DirStore::reading(rt, path),
        }
    }
}

impl Store for Folder {
    ghost use Rattle.dk_dir.specs.Counts.{dir_seen};

    ghost seen = { λ s. dir_seen s.store };

    fn list(&mut self, folder: &str, from: &str) -> Result<Vec<Entry>, StoreError> {
        self.store.list(folder, from)
    }

    fn get(&mut self, path: &str) -> Result<Option<Vec<u8>>, StoreError> {
        self.store.get(path)
    }

    fn put_new(&mut self, path: &str, bytes: &[u8], now: i64) -> Result<Put, StoreError> {
        self.store.put_new(path, bytes, now)
    }

    fn put_over(&mut self, path: &str, bytes: &[u8], now: i64) -> Result<(), StoreError> {
        self.store.put_over(path, bytes, now)
    }

    fn delete(&mut self, path: &str) -> Result<(), StoreError> {
        self.store.delete(path)
    }

    fn ratify(&mut self, version: u64, name: &str) -> Result<Ratify, StoreError> {
        self.store.ratify(version, name)
    }

    fn ratified(&mut self, from: u64) -> Result<Vec<Ratification>, StoreError> {
        self.store.ratified(from)
    }

    fn forget(&mut self, upto: u64) -> Result<(), StoreError> {
        self.store.forget(upto)
    }
}
