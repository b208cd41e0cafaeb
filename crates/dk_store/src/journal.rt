//! The events that a store in memory has taken, and what each call of a store makes of them.
ghost use Rattle.std.specs.Prelude.{IsTrue};
ghost use Rattle.std.specs.List.{list_all};
ghost use Rattle.dk_store.specs.Standings.{has_version};
ghost use Rattle.dk_store.specs.Views.{told_event};

use crate::event::{Entry, Event, Put, Ratification, Ratify};
use crate::listing::listed_objects;
use crate::objects::{bytes_at, gather};
use crate::standings::{next_version, standing, standing_from};
use std::alloc::{AllocError, Global};

// The events, the oldest first. A call whose answer is an error leaves them as they were.
#[derive(Drop)]
pub(crate) struct Journal {
    alloc: Global,
    events: Vec<Event>,
    ghost versions: { IsTrue (list_all (λ e. has_version (told_event e)) events.items) },
}

impl Journal {
    ghost use Rattle.std.specs.Prelude.{◌≡◌, ◌∷◌, ◌<◌, ◌≤◌, ◌^◌, IfOk, OnOk, OnErr, IsTrue, All, map, option_map, length};
    ghost use Rattle.std.specs.List.{list_all};
    ghost use Rattle.dk_store.specs.Told.{Over, Deleted, Forgotten};
    ghost use Rattle.dk_store.specs.Objects.{content};
    ghost use Rattle.dk_store.specs.Listing.{listing};
    ghost use Rattle.dk_store.specs.Standings.{has_version, ratified_from};
    ghost use Rattle.dk_store.specs.Writing.{deleted};
    ghost use Rattle.dk_store.specs.Views.{listed, newest_first, ratification, told_event};
    ghost use Rattle.dk_store.specs.Journal.{journal_events, Makes, Settles};

    pub(crate) fn new(alloc: Global, events: Vec<Event>) -> Self
        requires { IsTrue (list_all (λ e. has_version (told_event e)) events.items) }
        ensures { journal_events result ≡ newest_first events.items }
    {
        Journal { alloc, events }
    }

    // The events, the oldest first.
    pub(crate) fn events(&self) -> &[Event]
        ensures { newest_first result.now ≡ journal_events self.now }
    {
        &self.events
    }

    pub(crate) fn list(&self, folder: &str, from: &str) -> Result<Vec<Entry>, AllocError>
        ensures { IfOk result (λ entries. map listed entries.items ≡ listing (journal_events self.now) folder.now from.now) }
    {
        let objects = gather(self.alloc, &self.events)?;
        listed_objects(self.alloc, &objects, folder, from)
    }

    pub(crate) fn get(&self, path: &str) -> Result<Option<Vec<u8>>, AllocError>
        ensures { IfOk result (λ bytes. option_map (λ v. v.items) bytes ≡ content (journal_events self.now) path.now) }
    {
        match bytes_at(&self.events, path) {
            None => Ok(None),
            Some(bytes) => Ok(Some(bytes.to_vec(self.alloc)?)),
        }
    }

    // The ratifications from a version on that stand, ascending.
    pub(crate) fn ratified(&self, from: u64) -> Result<Vec<Ratification>, AllocError>
        ensures found { IfOk result (λ found. map ratification found.items ≡ ratified_from (journal_events self.now) from) }
        ensures versions { IfOk result (λ found. All (λ r. r.version < 2 ^ 63) found.items) }
    {
        let standing = standing(self.alloc, &self.events)?;
        standing_from(self.alloc, &standing, from)
    }

    // Makes the object where none is.
    pub(crate) fn make(&mut self, path: &str, bytes: &[u8], stamp: i64) -> Result<Put, AllocError>
        ensures { Makes path.now bytes.now stamp (journal_events self.old) result (journal_events self.new) }
    {
        if bytes_at(&self.events, path).is_some() {
            return Ok(Put::Exists);
        }
        let path = String::from_str(self.alloc, path)?;
        let bytes = bytes.to_vec(self.alloc)?;
        self.push(Event::Made { path, bytes, stamp })?;
        Ok(Put::Made)
    }

    // Makes the object, in place of another if one is there.
    pub(crate) fn write(&mut self, path: &str, bytes: &[u8], stamp: i64) -> Result<(), AllocError>
        ensures ok { OnOk result (journal_events self.new ≡ Over path.now bytes.now stamp ∷ journal_events self.old) }
        ensures err { OnErr result (journal_events self.new ≡ journal_events self.old) }
    {
        let path = String::from_str(self.alloc, path)?;
        let bytes = bytes.to_vec(self.alloc)?;
        self.push(Event::Over { path, bytes, stamp })
    }

    // Takes what is at the path away.
    pub(crate) fn lose(&mut self, path: &str) -> Result<(), AllocError>
        ensures ok { OnOk result (journal_events self.new ≡ Deleted path.now ∷ journal_events self.old) }
        ensures err { OnErr result (journal_events self.new ≡ journal_events self.old) }
    {
        let path = String::from_str(self.alloc, path)?;
        self.push(Event::Deleted { path })
    }

    // Takes the object away where one is.
    pub(crate) fn delete(&mut self, path: &str) -> Result<(), AllocError>
        ensures ok { OnOk result (journal_events self.new ≡ deleted path.now (journal_events self.old)) }
        ensures err { OnErr result (journal_events self.new ≡ journal_events self.old) }
    {
        if bytes_at(&self.events, path).is_none() {
            return Ok(());
        }
        self.lose(path)
    }

    // Ratifies a version where none was ratified before, or where it is the next one.
    pub(crate) fn ratify(&mut self, version: u64, name: &str) -> Result<Ratify, AllocError>
        requires { version < 2 ^ 63 }
        ensures { Settles version name.now (journal_events self.old) result (journal_events self.new) }
    {
        if let Some(next) = next_version(&self.events)
            && next != version
        {
            return Ok(Ratify::Lost { next });
        }
        let name = String::from_str(self.alloc, name)?;
        self.push(Event::Ratified { version, name })?;
        Ok(Ratify::Made)
    }

    pub(crate) fn forget(&mut self, upto: u64) -> Result<(), AllocError>
        ensures ok { OnOk result (journal_events self.new ≡ Forgotten upto ∷ journal_events self.old) }
        ensures err { OnErr result (journal_events self.new ≡ journal_events self.old) }
    {
        self.push(Event::Forgotten { upto })
    }

    fn push(&mut self, event: Event) -> Result<(), AllocError>
        requires { IsTrue (has_version (told_event event)) }
        ensures ok { OnOk result (journal_events self.new ≡ told_event event ∷ journal_events self.old) }
        ensures err { OnErr result (journal_events self.new ≡ journal_events self.old) }
    {
        self.events.push(event)?;
        Ok(())
    }
}
