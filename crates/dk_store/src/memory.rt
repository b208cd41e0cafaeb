//! A store in memory, which keeps all its events and tells them, and fails where that was planned.
ghost use Rattle.std.specs.Prelude.{◌≡◌, ◌≤◌, ◌+◌, ◌-◌, ◌^◌, min, take, Some};
ghost use Rattle.dk_store.specs.Causes.{Rose};
ghost use Rattle.dk_store.specs.Memory.{mem_events, mem_faults, mem_clashes, mem_seen};

use crate::event::{Entry, Event, Put, Ratification, Ratify, StoreError};
use crate::journal::Journal;
use crate::plan::{Call, Fault, How, Plan};
use crate::store::Store;
use std::alloc::{AllocError, Global};

/// A store in memory. It takes `now` as the stamp of what is written.
#[derive(Drop)]
pub struct MemStore {
    journal: Journal,
    plan: Plan,
    faults: u64,
    clashes: u64,
}

impl MemStore {
    ghost use Rattle.std.specs.Prelude.{◌≡◌, ◌∷◌, [], IfOk, IsErr, IsErrOf, IsTrue};
    ghost use Rattle.std.specs.List.{list_all};
    ghost use Rattle.dk_store.specs.Told.{Over};
    ghost use Rattle.dk_store.specs.Standings.{has_version};
    ghost use Rattle.dk_store.specs.Views.{newest_first, told_event};
    ghost use Rattle.dk_store.specs.Memory.{mem_events, mem_faults, mem_clashes};

    /// An empty store with no fault planned.
    pub fn new(alloc: Global) -> Self
        ensures empty { mem_events result ≡ [] }
        ensures faults { mem_faults result ≡ 0 }
        ensures clashes { mem_clashes result ≡ 0 }
    {
        MemStore::holding(alloc, Vec::new(alloc))
    }

    /// A store that has taken these events, the oldest first. The version of each ratification is one that a table can
    /// have. `Err` is want of memory.
    pub fn from_events(alloc: Global, events: Vec<Event>) -> Result<Self, AllocError>
        requires { IsTrue (list_all (λ e. has_version (told_event e)) events.items) }
        ensures events { IfOk result (λ store. mem_events store ≡ newest_first events.items) }
        ensures faults { IfOk result (λ store. mem_faults store ≡ 0) }
        ensures clashes { IfOk result (λ store. mem_clashes store ≡ 0) }
    {
        Ok(MemStore::holding(alloc, events))
    }

    /// Which calls are to fail, counted anew from now. A stop that has come lasts until `mend`.
    pub fn plan(&mut self, faults: Vec<Fault>)
        ensures events { mem_events self.new ≡ mem_events self.old }
        ensures faults { mem_faults self.new ≡ mem_faults self.old }
        ensures clashes { mem_clashes self.new ≡ mem_clashes self.old }
    {
        self.plan.replace(faults);
    }

    /// Ends a stop.
    pub fn mend(&mut self)
        ensures events { mem_events self.new ≡ mem_events self.old }
        ensures faults { mem_faults self.new ≡ mem_faults self.old }
        ensures clashes { mem_clashes self.new ≡ mem_clashes self.old }
    {
        self.plan.mend();
    }

    /// The events, the oldest first.
    pub fn events(&self) -> &[Event]
        ensures { newest_first result.now ≡ mem_events self.now }
    {
        self.journal.events()
    }

    // A store that has taken these events and has not failed.
    fn holding(alloc: Global, events: Vec<Event>) -> Self
        requires { IsTrue (list_all (λ e. has_version (told_event e)) events.items) }
        ensures events { mem_events result ≡ newest_first events.items }
        ensures faults { mem_faults result ≡ 0 }
        ensures clashes { mem_clashes result ≡ 0 }
    {
        MemStore {
            journal: Journal::new(alloc, events),
            plan: Plan::new(Vec::new(alloc)),
            faults: 0,
            clashes: 0,
        }
    }

    // One more failure.
    fn fail(&mut self) -> StoreError
        ensures failed { result ≡ StoreError.Failed }
        ensures events { mem_events self.new ≡ mem_events self.old }
        ensures later { mem_faults self.old ≤ mem_faults self.new }
        ensures faults { mem_faults self.new ≡ min (mem_faults self.old + 1) (2 ^ 64 - 1) }
        ensures clashes { mem_clashes self.new ≡ mem_clashes self.old }
    {
        self.faults = self.faults.saturating_add(1);
        StoreError::Failed
    }

    // Writes these bytes, and fails.
    fn tear(&mut self, path: &str, bytes: &[u8], stamp: i64) -> Result<(), StoreError>
        ensures fails { IsErr result }
        ensures failed { IsErrOf result StoreError.Failed → Rose (mem_faults self.old) (mem_faults self.new) × (mem_events self.new ≡ Over path.now bytes.now stamp ∷ mem_events self.old) }
        ensures memory { IsErrOf result StoreError.OutOfMemory → mem_events self.new ≡ mem_events self.old }
        ensures later { mem_faults self.old ≤ mem_faults self.new }
        ensures clashes { mem_clashes self.new ≡ mem_clashes self.old }
    {
        self.journal.write(path, bytes, stamp)?;
        Err(self.fail())
    }

    // One more clash.
    fn clash(&mut self)
        ensures events { mem_events self.new ≡ mem_events self.old }
        ensures faults { mem_faults self.new ≡ mem_faults self.old }
        ensures later { mem_clashes self.old ≤ mem_clashes self.new }
        ensures clashes { mem_clashes self.new ≡ min (mem_clashes self.old + 1) (2 ^ 64 - 1) }
    {
        self.clashes = self.clashes.saturating_add(1);
    }
}

impl Store for MemStore {
    ghost seen = { λ s. mem_seen s };

    fn list(&mut self, folder: &str, from: &str) -> Result<Vec<Entry>, StoreError> {
        if self.plan.next(Call::List).is_some() {
            return Err(self.fail());
        }
        Ok(self.journal.list(folder, from)?)
    }

    fn get(&mut self, path: &str) -> Result<Option<Vec<u8>>, StoreError> {
        if self.plan.next(Call::Get).is_some() {
            return Err(self.fail());
        }
        Ok(self.journal.get(path)?)
    }

    fn put_new(&mut self, path: &str, bytes: &[u8], now: i64) -> Result<Put, StoreError> {
        match self.plan.next(Call::PutNew) {
            None => {
                let put = self.journal.make(path, bytes, now)?;
                if let Put::Exists = put {
                    self.clash();
                }
                Ok(put)
            }
            Some(How::After) => {
                self.journal.make(path, bytes, now)?;
                Err(self.fail())
            }
            Some(_) => Err(self.fail()),
        }
    }

    fn put_over(&mut self, path: &str, bytes: &[u8], now: i64) -> Result<(), StoreError> {
        match self.plan.next(Call::PutOver) {
            None => Ok(self.journal.write(path, bytes, now)?),
            Some(How::After) => self.tear(path, bytes, now),
            Some(How::Torn { kept }) => self.tear(path, first(bytes, kept), now),
            Some(How::Lost) => {
                self.journal.lose(path)?;
                Err(self.fail())
            }
            Some(_) => Err(self.fail()),
        }
    }

    fn delete(&mut self, path: &str) -> Result<(), StoreError> {
        match self.plan.next(Call::Delete) {
            None => Ok(self.journal.delete(path)?),
            Some(How::After) => {
                self.journal.delete(path)?;
                Err(self.fail())
            }
            Some(_) => Err(self.fail()),
        }
    }

    fn ratify(&mut self, version: u64, name: &str) -> Result<Ratify, StoreError> {
        match self.plan.next(Call::Ratify) {
            None => {
                let answer = self.journal.ratify(version, name)?;
                if let Ratify::Lost { .. } = answer {
                    self.clash();
                }
                Ok(answer)
            }
            Some(How::After) => {
                self.journal.ratify(version, name)?;
                Err(self.fail())
            }
            Some(_) => Err(self.fail()),
        }
    }

    fn ratified(&mut self, from: u64) -> Result<Vec<Ratification>, StoreError> {
        if self.plan.next(Call::Ratified).is_some() {
            return Err(self.fail());
        }
        Ok(self.journal.ratified(from)?)
    }

    fn forget(&mut self, upto: u64) -> Result<(), StoreError> {
        match self.plan.next(Call::Forget) {
            None => Ok(self.journal.forget(upto)?),
            Some(How::After) => {
                self.journal.forget(upto)?;
                Err(self.fail())
            }
            Some(_) => Err(self.fail()),
        }
    }
}

// The first bytes, as many as are kept and are there.
fn first(bytes: &[u8], kept: u64) -> &[u8]
    ensures { result.now ≡ take kept bytes.now }
{
    if kept < bytes.len() as u64 {
        &bytes[..kept as usize]
    } else {
        bytes
    }
}
