//! A version of the table.
ghost use Rattle.std.specs.Prelude.{◌≡◌, ◌≤◌, ◌<◌, ◌^◌, Err, IfErr, IfOk, IfSome, List, None, Some, reverse, ℕ};
ghost use Rattle.std.specs.List.{AllByRecursion};
ghost use Rattle.dk_store.specs.Seen.{IfTold};
ghost use Rattle.dk_model.specs.ReadBack.{HasVersionsInRange};
ghost use Rattle.dk_model.specs.State.{empty_state, steps};
ghost use Rattle.dk_engine.specs.Answers.{AnswersMeant, AnswersBy};
ghost use Rattle.dk_engine.specs.Effects.{OnlyReads};
ghost use Rattle.dk_listing.specs.Latest.{latest_of};
ghost use Rattle.dk_listing.specs.OfEvents.{IsListingOf};
ghost use Rattle.dk_snapshot.specs.Opening.{opened, opened_segment, read_of, snapshot_with, state_read};
ghost use Rattle.dk_snapshot.specs.Opens.{Opens};
ghost use Rattle.dk_snapshot.specs.Refusals.{OpenRefuses};
ghost use Rattle.dk_snapshot.specs.Steps.{AreSized};
ghost use Rattle.dk_snapshot.specs.Support.{IsComplete};

use crate::folding::fold_newest_first;
use crate::oldest::oldest_path;
use crate::options::OpenOptions;
use crate::sized_segment::{SizedSegment, find_segment, take_segment};
use crate::steps::read_steps;
use crate::support::cut_of;
use crate::surveying::survey;
use crate::table::Snapshot;
use dk_engine::{JsonHandler, Refusal};
use dk_lawful::Segment;
use dk_listing::Catalogued;
use dk_model::{Action, TableState};
use dk_store::Store;
use std::alloc::Global;

/// The state that these actions make up, of which the newest comes first, and its cut. They are given up. `oldest` is the
/// path of the oldest object.
fn state_of(
    alloc: Global,
    newest_first: Vec<Action>,
    oldest: &str,
    now: i64,
) -> Result<(TableState, i64), Refusal>
    requires { AllByRecursion HasVersionsInRange (reverse newest_first.items) }
    ensures means { AnswersMeant (λ read. read) result (state_read oldest.now now (steps empty_state (reverse newest_first.items))) }
    ensures complete { IfOk result (λ read. IsComplete read.0) }
    ensures store { result ≡ Err Refusal.Store → ⊥ }
    ensures refusals { IfErr result (OpenRefuses None) }
{
    let state = fold_newest_first(alloc, newest_first)?;
    match cut_of(alloc, &state, oldest, now) {
        Err(refusal) => Err(refusal),
        Ok(cut) => Ok((state, cut)),
    }
}

/// The state that is read from a segment, and its cut.
fn read_segment(
    alloc: Global,
    store: &mut dyn Store,
    json: &mut dyn JsonHandler,
    options: OpenOptions,
    sizes: &[Option<u64>],
    segment: &Segment,
) -> Result<(TableState, i64), Refusal>
    ensures reads { OnlyReads (seen store.old) (seen store.new) result }
    ensures refusals { IfErr result (OpenRefuses None) }
    ensures means { IfTold (seen store.old) (λ events. AreSized events segment.now.steps sizes.now → AnswersMeant (λ read. read) result (read_of events options.limits options.now segment.now)) }
    ensures complete { IfOk result (λ read. IsComplete read.0) }
{
    let steps = segment.steps.as_slice();
    match read_steps(alloc, store, json, steps, sizes, options.limits.object) {
        Err(refusal) => Err(refusal),
        Ok(newest_first) => state_of(alloc, newest_first, oldest_path(segment), options.now),
    }
}

/// The snapshot of what was read from a segment.
fn snapshot_with(
    version: u64,
    segment: Segment,
    read: Result<(TableState, i64), Refusal>,
) -> Result<Snapshot, Refusal>
    ensures { result ≡ snapshot_with version segment read }
{
    match read {
        Err(refusal) => Err(refusal),
        Ok((state, cut)) => Ok(Snapshot {
            version,
            state,
            cut,
            segment,
        }),
    }
}

/// Opens the version that is read from this segment.
fn read_sized(
    alloc: Global,
    store: &mut dyn Store,
    json: &mut dyn JsonHandler,
    options: OpenOptions,
    sized_segment: SizedSegment,
) -> Result<Snapshot, Refusal>
    ensures reads { OnlyReads (seen store.old) (seen store.new) result }
    ensures refusals { IfErr result (OpenRefuses None) }
    ensures means { IfTold (seen store.old) (λ events. AreSized events sized_segment.segment.steps sized_segment.sizes.items → AnswersMeant (λ snapshot. snapshot) result (opened_segment events options.limits options.now sized_segment.version sized_segment.segment)) }
    ensures complete { IfOk result (λ snapshot. IsComplete snapshot.state) }
    ensures version { IfOk result (λ snapshot. snapshot.version ≡ sized_segment.version) }
{
    let SizedSegment {
        version,
        segment,
        sizes,
    } = sized_segment;
    let read = read_segment(alloc, store, json, options, &sizes, &segment);
    snapshot_with(version, segment, read)
}

/// Opens the asked version, or the latest one, by the listing that a survey of this store found (Delta Lake's PROTOCOL.md,
/// "Delta Log Entries", "Action Reconciliation"). It lists nothing, and is refused as [`open_at`] is.
pub fn open_listed(
    alloc: Global,
    store: &mut dyn Store,
    json: &mut dyn JsonHandler,
    listing: &Catalogued,
    at: Option<u64>,
    options: OpenOptions,
) -> Result<Snapshot, Refusal>
    ensures reads { OnlyReads (seen store.old) (seen store.new) result }
    ensures refusals { IfErr result (OpenRefuses at) }
    ensures means { IfTold (seen store.old) (λ events. IsListingOf events listing.now → AnswersBy (λ snapshot. snapshot) result (Opens events options.limits at options.choice options.now)) }
    ensures complete { IfOk result (λ snapshot. IsComplete snapshot.state) }
    ensures latest { at ≡ None → IfOk result (λ snapshot. Some snapshot.version ≡ latest_of listing.now) }
    ensures small { IfOk result (λ snapshot. snapshot.version < 2 ^ 63) }
{
    match find_segment(alloc, listing, at, &options.choice) {
        Err(refusal) => Err(refusal),
        Ok(sized_segment) => read_sized(alloc, store, json, options, sized_segment),
    }
}

/// Opens the asked version, or the latest one, by the listing that a survey found. The listing is given up before any object
/// is read. Refused as [`open_at`] is.
fn open_surveyed(
    alloc: Global,
    store: &mut dyn Store,
    json: &mut dyn JsonHandler,
    listing: Catalogued,
    at: Option<u64>,
    options: OpenOptions,
) -> Result<Snapshot, Refusal>
    ensures reads { OnlyReads (seen store.old) (seen store.new) result }
    ensures refusals { IfErr result (OpenRefuses at) }
    ensures means { IfTold (seen store.old) (λ events. IsListingOf events listing → AnswersMeant (λ snapshot. snapshot) result (opened events options.limits at options.choice options.now)) }
    ensures complete { IfOk result (λ snapshot. IsComplete snapshot.state) }
    ensures small { IfOk result (λ snapshot. snapshot.version < 2 ^ 63) }
{
    match take_segment(alloc, listing, at, &options.choice) {
        Err(refusal) => Err(refusal),
        Ok(sized_segment) => read_sized(alloc, store, json, options, sized_segment),
    }
}

/// Opens the asked version of the table, or the latest one, which is the greatest that is published, stands ratified or has a
/// complete checkpoint (Delta Lake's PROTOCOL.md, "Delta Log Entries", "Catalog-managed tables"). It lists the log, its
/// staged commits and the catalogue once each, and reads each of the version's commits once, from the newest to the
/// oldest, and nothing after that version.
///
/// Beside faults of the store and want of memory it is refused, in this order: `Missing` of version 0 where the log is empty,
/// `NoVersion` where the asked version is above the latest, `Missing` of the first commit up to it that is absent, for the newest
/// commit that can't be read `Limit` of `Object` where it is greater than `options.limits.object` bytes or else `Damaged` where it
/// means nothing, `Damaged` of the oldest object ([`crate::oldest_path`]), as a whole, where the table has no protocol or no
/// metadata, and `Unsupported` of the first reader version or feature that isn't read, of deletion vectors, and of a retention of
/// removed files that is no interval. Nothing else refuses it, whether the store tells its events or not.
///
/// Over every store, also one that tells no events, the state that is answered has what writers of checkpoints need of it.
pub fn open_at(
    alloc: Global,
    store: &mut dyn Store,
    json: &mut dyn JsonHandler,
    at: Option<u64>,
    options: OpenOptions,
) -> Result<Snapshot, Refusal>
    ensures reads { OnlyReads (seen store.old) (seen store.new) result }
    ensures refusals { IfErr result (OpenRefuses at) }
    ensures means { IfTold (seen store.old) (λ events. AnswersBy (λ snapshot. snapshot) result (Opens events options.limits at options.choice options.now)) }
    ensures complete { IfOk result (λ snapshot. IsComplete snapshot.state) }
    ensures small { IfOk result (λ snapshot. snapshot.version < 2 ^ 63) }
{
    match survey(alloc, store) {
        Err(refusal) => Err(refusal),
        Ok(listing) => open_surveyed(alloc, store, json, listing, at, options),
    }
}
