//! Sorting a listing.
ghost use Rattle.std.specs.Prelude.{◌≡◌, ◌<◌, ◌^◌, All, IfOk, map};
ghost use Rattle.std.specs.List.{filter_map};
ghost use Rattle.dk_store.specs.Views.{listed};
ghost use Rattle.dk_listing.specs.Entries.{in_log, in_staged, named_entry, staged_entry};

use crate::catalogued::Catalogued;
use crate::checkpoints::complete_checkpoints;
use crate::grouping::{read_log_names, read_staged_names};
use dk_store::{Entry, Ratification};
use std::alloc::{AllocError, Global};

/// Sorts a listing by what its names mean (Delta Lake's PROTOCOL.md, "File Types", "Catalog-managed tables"). `log` has
/// the entries of `_delta_log`, `staged` those of `_delta_log/_staged_commits`, where a name of another form is left out,
/// and `ratified` the ratifications that stand, of versions up to 9,223,372,036,854,775,807. Nothing is copied.
/// `Err` is want of memory.
pub fn group(
    alloc: Global,
    log: Vec<Entry>,
    staged: Vec<Entry>,
    ratified: Vec<Ratification>,
) -> Result<Catalogued, AllocError>
    requires { All (λ r. r.version < 2 ^ 63) ratified.items }
    ensures log { IfOk result (λ found. map named_entry found.log.items ≡ map in_log (map listed log.items)) }
    ensures staged { IfOk result (λ found. map staged_entry found.staged.items ≡ filter_map in_staged (map listed staged.items)) }
    ensures ratified { IfOk result (λ found. found.ratified ≡ ratified) }
{
    let log = read_log_names(alloc, log)?;
    let staged = read_staged_names(alloc, staged)?;
    let checkpoints = complete_checkpoints(alloc, &log)?;
    Ok(Catalogued {
        log,
        staged,
        ratified,
        checkpoints,
    })
}
