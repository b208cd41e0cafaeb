//! The store that a table lies in.
ghost use Rattle.std.specs.Prelude.{◌≡◌, ◌≤◌, ◌<◌, ◌^◌, ℕ, Ok, All, IfOk, map, option_map};
ghost use Rattle.dk_store.specs.Seen.{Seen, IfTold, StoreReads, StoreWrites, is_taken, is_lost, no_clash};
ghost use Rattle.dk_store.specs.Objects.{content};
ghost use Rattle.dk_store.specs.Listing.{listing};
ghost use Rattle.dk_store.specs.Standings.{ratified_from};
ghost use Rattle.dk_store.specs.Writing.{PutsNew, PutsOver, Deletes, Ratifies, Forgets};
ghost use Rattle.dk_store.specs.Views.{listed, ratification};

use crate::event::{Entry, Put, Ratification, Ratify, StoreError};

/// A store of objects, known by the events that it has taken. It is used boxed.
///
/// Clauses on content hold where the store tells its events. Each call leaves the events before it as they were, and
/// after `OutOfMemory` it has added none. `Failed` comes only where the count of faults rose in the call; what a call
/// may have added by then is said by the definition of its name in `Writing`. Neither count ever falls.
pub trait Store: Drop {
    /// Its events, the newest first, where the store tells them, and its counts of faults and clashes.
    ghost seen: { Self → Seen };

    /// The objects directly in the folder whose names are at least `from`, in byte order of their names.
    ///
    /// The empty folder is the table's own.
    fn list(&mut self, folder: &str, from: &str) -> Result<Vec<Entry>, StoreError>
        ensures reads { StoreReads (seen self.old) (seen self.new) result }
        ensures found { IfTold (seen self.old) (λ events. IfOk result (λ entries. map listed entries.items ≡ listing events folder.now from.now)) };

    /// The object's bytes; None exactly where it is absent.
    fn get(&mut self, path: &str) -> Result<Option<Vec<u8>>, StoreError>
        ensures reads { StoreReads (seen self.old) (seen self.new) result }
        ensures found { IfTold (seen self.old) (λ events. IfOk result (λ bytes. option_map (λ v. v.items) bytes ≡ content events path.now)) };

    /// Makes an object where none is; `Exists` exactly where one is, and then a clash is counted.
    ///
    /// The stamp of what is written is the store's own; it may use `now`.
    fn put_new(&mut self, path: &str, bytes: &[u8], now: i64) -> Result<Put, StoreError>
        ensures events { PutsNew path.now bytes.now (seen self.old).told result (seen self.new).told }
        ensures writes { StoreWrites (is_taken result) (seen self.old) (seen self.new) result };

    /// Makes an object, in place of another if one is there.
    fn put_over(&mut self, path: &str, bytes: &[u8], now: i64) -> Result<(), StoreError>
        ensures events { PutsOver path.now bytes.now (seen self.old).told result (seen self.new).told }
        ensures writes { StoreWrites no_clash (seen self.old) (seen self.new) result };

    /// Deletes the object where it is present.
    fn delete(&mut self, path: &str) -> Result<(), StoreError>
        ensures events { Deletes path.now (seen self.old).told result (seen self.new).told }
        ensures writes { StoreWrites no_clash (seen self.old) (seen self.new) result };

    /// Settles a version's commit as the staged object with this name. `Lost` exactly where some version was ratified
    /// before, forgotten or not, and `version` isn't the one above the greatest of them, which `next` is; then a clash
    /// is counted.
    fn ratify(&mut self, version: u64, name: &str) -> Result<Ratify, StoreError>
        requires { version < 2 ^ 63 }
        ensures events { Ratifies version name.now (seen self.old).told result (seen self.new).told }
        ensures next { (next : ℕ) → result ≡ Ok (Ratify.Lost next) → next ≤ 2 ^ 63 }
        ensures writes { StoreWrites (is_lost result) (seen self.old) (seen self.new) result };

    /// The ratifications from that version on that weren't forgotten, ascending.
    fn ratified(&mut self, from: u64) -> Result<Vec<Ratification>, StoreError>
        ensures reads { StoreReads (seen self.old) (seen self.new) result }
        ensures found { IfTold (seen self.old) (λ events. IfOk result (λ found. map ratification found.items ≡ ratified_from events from)) }
        ensures versions { IfOk result (λ found. All (λ r. r.version < 2 ^ 63) found.items) };

    /// Takes away that the ratifications up to that version stand.
    fn forget(&mut self, upto: u64) -> Result<(), StoreError>
        ensures events { Forgets upto (seen self.old).told result (seen self.new).told }
        ensures writes { StoreWrites no_clash (seen self.old) (seen self.new) result };
}
