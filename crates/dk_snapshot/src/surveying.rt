//! The listing of a whole log: its folder, its staged commits, and the ratifications that stand.
ghost use Rattle.std.specs.Prelude.{◌≡◌, ◌≤◌, ◌<◌, ◌^◌, All, Err, IfErr, IfOk, IfSome, IsErrOf, List, ℕ, [], codes, map};
ghost use Rattle.dk_store.specs.Seen.{IfTold, StoreReads};
ghost use Rattle.dk_store.specs.Listing.{listing};
ghost use Rattle.dk_store.specs.Standings.{ratified_from};
ghost use Rattle.dk_store.specs.Views.{listed, ratification};
ghost use Rattle.dk_engine.specs.Effects.{OnlyReads};
ghost use Rattle.dk_snapshot.specs.Refusals.{SurveyRefuses};
ghost use Rattle.dk_snapshot.specs.Surveyed.{Surveys};

use dk_engine::Refusal;
use dk_listing::{Catalogued, group};
use dk_store::{Entry, Ratification, Store, StoreError};
use std::alloc::Global;

/// The objects directly in the log's folder.
fn list_log(store: &mut dyn Store) -> Result<Vec<Entry>, StoreError>
    ensures reads { StoreReads (seen store.old) (seen store.new) result }
    ensures found { IfTold (seen store.old) (λ events. IfOk result (λ entries. map listed entries.items ≡ listing events (codes "_delta_log") [])) }
{
    store.list("_delta_log", "")
}

/// The objects directly in the folder of staged commits.
fn list_staged(store: &mut dyn Store) -> Result<Vec<Entry>, StoreError>
    ensures reads { StoreReads (seen store.old) (seen store.new) result }
    ensures found { IfTold (seen store.old) (λ events. IfOk result (λ entries. map listed entries.items ≡ listing events (codes "_delta_log/_staged_commits") [])) }
{
    store.list("_delta_log/_staged_commits", "")
}

/// All ratifications that stand.
fn list_ratified(store: &mut dyn Store) -> Result<Vec<Ratification>, StoreError>
    ensures reads { StoreReads (seen store.old) (seen store.new) result }
    ensures found { IfTold (seen store.old) (λ events. IfOk result (λ found. map ratification found.items ≡ ratified_from events 0)) }
    ensures versions { IfOk result (λ found. All (λ r. r.version < 2 ^ 63) found.items) }
{
    store.ratified(0)
}

/// Lists the log, its staged commits and the catalogue whole, each once (Delta Lake's PROTOCOL.md, "File Types",
/// "Catalog-managed tables"). It is refused by the store and by want of memory alone.
pub fn survey(alloc: Global, store: &mut dyn Store) -> Result<Catalogued, Refusal>
    ensures reads { OnlyReads (seen store.old) (seen store.new) result }
    ensures refusals { IfErr result SurveyRefuses }
    ensures found { IfTold (seen store.old) (λ events. Surveys events result) }
{
    let log = list_log(store)?;
    let staged = list_staged(store)?;
    let ratified = list_ratified(store)?;
    Ok(group(alloc, log, staged, ratified)?)
}
