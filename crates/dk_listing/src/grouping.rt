//! From entries to entries with a meaning.
ghost use Rattle.std.specs.Prelude.{◌≡◌, ◌<◌, ◌^◌, All, IfOk, map, true};
ghost use Rattle.std.specs.List.{filter_map};
ghost use Rattle.dk_store.specs.Views.{listed};
ghost use Rattle.dk_paths.specs.Names.{log_name_of};
ghost use Rattle.dk_listing.specs.Entries.{in_log, in_staged, named_entry, staged_entry};
ghost use Rattle.dk_listing.specs.Newest.{is_rising, version_named};

use crate::named::{Named, Staged};
use dk_paths::{LogName, read_name, read_staged};
use dk_store::Entry;
use std::alloc::{AllocError, Global};

/// What a name means, whose numbers it may have.
#[tactic(auto, using(crate::proofs::Rising::name_rises))]
fn read_rising(text: &str) -> LogName
    ensures named { result ≡ log_name_of text.now }
    ensures small { version_named result < 2 ^ 63 }
    ensures rising { is_rising result ≡ true }
{
    read_name(text)
}

/// The entries of the log's folder, each with what its name means.
pub(crate) fn read_log_names(alloc: Global, entries: Vec<Entry>) -> Result<Vec<Named>, AllocError>
    ensures named { IfOk result (λ found. map named_entry found.items ≡ map in_log (map listed entries.items)) }
    ensures small { IfOk result (λ found. All (λ named. version_named named.name < 2 ^ 63) found.items) }
    ensures rising { IfOk result (λ found. All (λ named. is_rising named.name ≡ true) found.items) }
{
    let mut found = Vec::new(alloc);
    for entry in entries {
        let name = read_rising(entry.name.as_str());
        found.push(Named { name, entry })?;
    }
    Ok(found)
}

/// The staged commits among the entries of their folder; names of another form are left out.
pub(crate) fn read_staged_names(
    alloc: Global,
    entries: Vec<Entry>,
) -> Result<Vec<Staged>, AllocError>
    ensures { IfOk result (λ found. map staged_entry found.items ≡ filter_map in_staged (map listed entries.items)) }
{
    let mut found = Vec::new(alloc);
    for entry in entries {
        if let Some((version, id)) = read_staged(entry.name.as_str()) {
            found.push(Staged { version, id, entry })?;
        }
    }
    Ok(found)
}
