//! The sizes of sidecars, by the listing of their folder.
ghost use Rattle.std.specs.Prelude.{◌≡◌, IfErr, IfOk, List, map};
ghost use Rattle.dk_store.specs.Seen.{IfTold, StoreReads};
ghost use Rattle.dk_store.specs.Told.{Told};
ghost use Rattle.dk_store.specs.Views.{listed};
ghost use Rattle.dk_engine.specs.Effects.{OnlyReads};
ghost use Rattle.dk_listing.specs.Sizes.{size_of_name};
ghost use Rattle.dk_snapshot.specs.Refusals.{SurveyRefuses};
ghost use Rattle.dk_snapshot.specs.Sidecars.{AreSidecarNames, AreSidecarSizes, IsSidecarFolder};
ghost use Rattle.dk_snapshot.specs.Sizes.{HasSizes, size_under};

use crate::sizes::size_under;
use dk_engine::Refusal;
use dk_model::Text;
use dk_store::{Entry, Store, StoreError};
use std::alloc::{AllocError, Global};
use std::collections::BTreeMap;

/// The objects directly in the folder of sidecars.
fn list_sidecars(store: &mut dyn Store) -> Result<Vec<Entry>, StoreError>
    ensures reads { StoreReads (seen store.old) (seen store.new) result }
    ensures found { IfTold (seen store.old) (λ events. IfOk result (λ entries. IsSidecarFolder events (map listed entries.items))) }
{
    store.list("_delta_log/_sidecars", "")
}

/// The size of each entry under its name.
fn entry_sizes<'a>(
    alloc: Global,
    entries: &'a [Entry],
) -> Result<BTreeMap<&'a str, u64>, AllocError>
    ensures { IfOk result (λ sizes. HasSizes sizes (map listed entries.now)) }
{
    let mut sizes = BTreeMap::new(alloc);
    for entry in entries {
        let name = entry.name.as_str();
        if !sizes.contains_key(&name) {
            sizes.insert(name, entry.size)?;
        }
    }
    Ok(sizes)
}

/// The size that is known under each of these names.
fn sizes_under<'a>(
    alloc: Global,
    sizes: &BTreeMap<&'a str, u64>,
    names: &'a [Text],
) -> Result<Vec<Option<u64>>, AllocError>
    ensures { IfOk result (λ found. found.items ≡ map (λ name. size_under sizes.now name) names.now) }
{
    let mut found = Vec::with_capacity(alloc, names.len())?;
    for name in names {
        found.push(size_under(sizes, name.as_str()))?;
    }
    Ok(found)
}

/// The size of each of these sidecars by the entries of their folder.
fn sizes_among<'a>(
    alloc: Global,
    entries: &'a [Entry],
    names: &'a [Text],
) -> Result<Vec<Option<u64>>, AllocError>
    ensures found { IfOk result (λ sizes. sizes.items ≡ map (λ name. size_of_name (map listed entries.now) name) names.now) }
    ensures stored { (events : List Told) → IsSidecarFolder events (map listed entries.now) → AreSidecarNames names.now → IfOk result (λ sizes. AreSidecarSizes events names.now sizes.items) }
{
    let sizes = entry_sizes(alloc, entries)?;
    sizes_under(alloc, &sizes, names)
}

/// The size in bytes of each of these sidecars, by its name in the folder of sidecars, in the order of the names; None for one that
/// isn't there (Delta Lake's PROTOCOL.md, "Sidecar Files"). It lists that folder once, reads no object, and is refused by the
/// store and by want of memory alone.
pub fn sidecar_sizes(
    alloc: Global,
    store: &mut dyn Store,
    names: &[Text],
) -> Result<Vec<Option<u64>>, Refusal>
    ensures reads { OnlyReads (seen store.old) (seen store.new) result }
    ensures refusals { IfErr result SurveyRefuses }
    ensures found { IfTold (seen store.old) (λ events. AreSidecarNames names.now → IfOk result (λ sizes. AreSidecarSizes events names.now sizes.items)) }
{
    let entries = list_sidecars(store)?;
    Ok(sizes_among(alloc, &entries, names)?)
}
