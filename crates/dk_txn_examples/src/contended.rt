//! A store in which others come first.

use dk_store::{Entry, MemStore, Put, Ratification, Ratify, Store, StoreError};

/// A store in memory in which another writer puts a commit at a path right before it is asked to, as often as it has texts of
/// others left. It tells no events.
#[derive(Drop)]
pub struct Contended {
    pub inner: MemStore,
    /// What others put; the last one comes first.
    pub others: Vec<Vec<u8>>,
    pub clashes: u64,
}

impl Store for Contended {
    ghost use Rattle.std.specs.Prelude.{None};
    ghost use Rattle.dk_store.specs.Memory.{mem_faults};

    ghost seen = { λ s. record { told = None; faults = mem_faults s.inner; clashes = s.clashes } };

    fn list(&mut self, folder: &str, from: &str) -> Result<Vec<Entry>, StoreError> {
        self.inner.list(folder, from)
    }

    fn get(&mut self, path: &str) -> Result<Option<Vec<u8>>, StoreError> {
        self.inner.get(path)
    }

    fn put_new(&mut self, path: &str, bytes: &[u8], now: i64) -> Result<Put, StoreError> {
        if let Some(other) = self.others.pop() {
            self.inner.put_new(path, &other, now)?;
        }
        let put = self.inner.put_new(path, bytes, now)?;
        if let Put::Exists = put {
            self.clashes = self.clashes.saturating_add(1);
        }
        Ok(put)
    }

    fn put_over(&mut self, path: &str, bytes: &[u8], now: i64) -> Result<(), StoreError> {
        self.inner.put_over(path, bytes, now)
    }

    fn delete(&mut self, path: &str) -> Result<(), StoreError> {
        self.inner.delete(path)
    }

    fn ratify(&mut self, version: u64, name: &str) -> Result<Ratify, StoreError> {
        let ratified = self.inner.ratify(version, name)?;
        if let Ratify::Lost { .. } = ratified {
            self.clashes = self.clashes.saturating_add(1);
        }
        Ok(ratified)
    }

    fn ratified(&mut self, from: u64) -> Result<Vec<Ratification>, StoreError> {
        self.inner.ratified(from)
    }

    fn forget(&mut self, upto: u64) -> Result<(), StoreError> {
        self.inner.forget(upto)
    }
}
