//! Reading the objects of a segment, from the newest to the oldest.
ghost use Rattle.std.specs.Prelude.{◌≡◌, ◌≤◌, Err, None, IfErr, IfOk, IfSome, IsErrOf, List, option_and_then, option_map, reverse, slice_get, ℕ};
ghost use Rattle.std.specs.List.{AllByRecursion};
ghost use Rattle.dk_store.specs.Seen.{IfTold, StoreReads};
ghost use Rattle.dk_store.specs.Objects.{content};
ghost use Rattle.dk_model.specs.CommitText.{reading_of};
ghost use Rattle.dk_model.specs.ReadBack.{HasVersionsInRange};
ghost use Rattle.dk_engine.specs.Answers.{AnswersMeant};
ghost use Rattle.dk_engine.specs.Effects.{OnlyReads};
ghost use Rattle.dk_listing.specs.Sizes.{stored_size};
ghost use Rattle.dk_snapshot.specs.Effects.{changes_read};
ghost use Rattle.dk_snapshot.specs.Log.{commit_of_object, meant};
ghost use Rattle.dk_snapshot.specs.Refusals.{OpenRefuses, ReadRefuses};
ghost use Rattle.dk_snapshot.specs.Steps.{AreSized, commit_at_path, commits_of_steps, fits, step_path};

use crate::folding::gather;
use dk_engine::{JsonHandler, Refusal, Which};
use dk_lawful::Step;
use dk_model::{Action, Commit, LineFault, Text};
use dk_store::{Store, StoreError};
use std::alloc::Global;

pub(crate) fn step_path(step: &Step) -> &str
    ensures { result.now ≡ step_path step.now }
{
    match step {
        Step::Commit { path, .. } => path.as_str(),
        Step::Compacted { path, .. } => path.as_str(),
    }
}

/// How great an object is by its listing, if one shows it, and how great it may be, both in bytes.
#[derive(Clone, Copy)]
pub struct Measured {
    pub size: Option<u64>,
    pub limit: u64,
}

/// An object over the limit isn't read.
fn fits(measured: Measured) -> Result<(), Refusal>
    ensures means { AnswersMeant (λ u. u) result (fits measured.limit measured.size) }
    ensures store { result ≡ Err Refusal.Store → ⊥ }
    ensures refusals { IfErr result ReadRefuses }
{
    match measured.size {
        Some(size) if size > measured.limit => Err(Refusal::Limit {
            which: Which::Object,
            value: size,
        }),
        _ => Ok(()),
    }
}

/// What the bytes of a commit mean.
#[tactic(auto, using(crate::proofs::ReadVersions::read_in_range))]
fn read_bytes(
    alloc: Global,
    json: &mut dyn JsonHandler,
    path: &str,
    bytes: &[u8],
) -> Result<Commit, Refusal>
    ensures means { AnswersMeant (λ commit. commit) result (meant path.now (reading_of bytes.now)) }
    ensures versions { IfOk result (λ commit. AllByRecursion HasVersionsInRange commit) }
    ensures store { result ≡ Err Refusal.Store → ⊥ }
    ensures refusals { IfErr result ReadRefuses }
{
    match json.read_commit(alloc, bytes) {
        Ok(commit) => Ok(commit),
        Err(LineFault::Bad { line }) => Err(Refusal::Damaged {
            path: Text::from_str(alloc, path)?,
            place: line,
        }),
        Err(LineFault::OutOfMemory) => Err(Refusal::OutOfMemory),
    }
}

/// What an object means as a commit, if it is there.
fn read_object(
    alloc: Global,
    json: &mut dyn JsonHandler,
    path: &str,
    object: Option<Vec<u8>>,
) -> Result<Commit, Refusal>
    ensures means { AnswersMeant (λ commit. commit) result (commit_of_object path.now (option_map (λ bytes. bytes.items) object)) }
    ensures versions { IfOk result (λ commit. AllByRecursion HasVersionsInRange commit) }
    ensures store { result ≡ Err Refusal.Store → ⊥ }
    ensures refusals { IfErr result ReadRefuses }
{
    match object {
        Some(bytes) => read_bytes(alloc, json, path, &bytes),
        None => Err(Refusal::Missing {
            path: Text::from_str(alloc, path)?,
        }),
    }
}

/// An object of the store.
fn get_object(store: &mut dyn Store, path: &str) -> Result<Option<Vec<u8>>, StoreError>
    ensures reads { StoreReads (seen store.old) (seen store.new) result }
    ensures found { IfTold (seen store.old) (λ events. IfOk result (λ object. option_map (λ bytes. bytes.items) object ≡ content events path.now)) }
{
    store.get(path)
}

/// Reads the commit at a path.
fn read_commit(
    alloc: Global,
    store: &mut dyn Store,
    json: &mut dyn JsonHandler,
    path: &str,
) -> Result<Commit, Refusal>
    ensures reads { OnlyReads (seen store.old) (seen store.new) result }
    ensures refusals { IfErr result ReadRefuses }
    ensures means { IfTold (seen store.old) (λ events. AnswersMeant (λ commit. commit) result (commit_of_object path.now (content events path.now))) }
    ensures versions { IfOk result (λ commit. AllByRecursion HasVersionsInRange commit) }
{
    let object = get_object(store, path)?;
    read_object(alloc, json, path, object)
}

/// Reads the commit at a path, where its listed size is within the limit.
fn read_within(
    alloc: Global,
    store: &mut dyn Store,
    json: &mut dyn JsonHandler,
    path: &str,
    measured: Measured,
) -> Result<Commit, Refusal>
    ensures reads { OnlyReads (seen store.old) (seen store.new) result }
    ensures refusals { IfErr result ReadRefuses }
    ensures means { IfTold (seen store.old) (λ events. measured.size ≡ stored_size events path.now → AnswersMeant (λ commit. commit) result (commit_at_path events measured.limit path.now)) }
    ensures versions { IfOk result (λ commit. AllByRecursion HasVersionsInRange commit) }
{
    match fits(measured) {
        Err(refusal) => Err(refusal),
        Ok(()) => read_commit(alloc, store, json, path),
    }
}

/// Reads the commit of a step, whose object is measured so, once (Delta Lake's PROTOCOL.md, "Delta Log Entries", "Actions").
/// Beside faults of the store and want of memory it is refused, in this order and by nothing else: `Limit` of `Object` where the
/// listed size is over the limit, `Missing` where the object is absent, `Damaged` where it means nothing, with its first bad line.
pub fn read_step(
    alloc: Global,
    store: &mut dyn Store,
    json: &mut dyn JsonHandler,
    step: &Step,
    measured: Measured,
) -> Result<Commit, Refusal>
    ensures reads { OnlyReads (seen store.old) (seen store.new) result }
    ensures refusals { IfErr result ReadRefuses }
    ensures means { IfTold (seen store.old) (λ events. measured.size ≡ stored_size events (step_path step.now) → AnswersMeant (λ commit. commit) result (commit_at_path events measured.limit (step_path step.now))) }
    ensures versions { IfOk result (λ commit. AllByRecursion HasVersionsInRange commit) }
{
    read_within(alloc, store, json, step_path(step), measured)
}

/// The size at a place of a list of sizes, if one is known.
fn size_at(sizes: &[Option<u64>], place: usize) -> Option<u64>
    ensures { result ≡ option_and_then (λ size. size) (slice_get sizes.now place) }
{
    match sizes.get(place) {
        Some(size) => *size,
        None => None,
    }
}

/// Reads the commits of these steps, whose listed sizes are these, from the newest to the oldest, each once. Of their
/// actions those are kept that change a state, the newest first.
pub(crate) fn read_steps(
    alloc: Global,
    store: &mut dyn Store,
    json: &mut dyn JsonHandler,
    steps: &[Step],
    sizes: &[Option<u64>],
    limit: u64,
) -> Result<Vec<Action>, Refusal>
    ensures reads { OnlyReads (seen store.old) (seen store.new) result }
    ensures refusals { IfErr result (OpenRefuses None) }
    ensures means { IfTold (seen store.old) (λ events. AreSized events steps.now sizes.now → AnswersMeant (λ found. reverse found.items) result (changes_read (commits_of_steps events limit steps.now))) }
    ensures versions { IfOk result (λ found. AllByRecursion HasVersionsInRange (reverse found.items)) }
{
    let mut found = Vec::new(alloc);
    for place in (0..steps.len()).rev() {
        let size = size_at(sizes, place);
        let measured = Measured { size, limit };
        match read_step(alloc, store, json, &steps[place], measured) {
            Ok(commit) => gather(&mut found, commit)?,
            Err(refusal) => return Err(refusal),
        }
    }
    Ok(found)
}
