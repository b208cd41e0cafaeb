//! The winners: the commits that came after a transaction's snapshot.
ghost use Rattle.std.specs.Prelude.{IfErr, ◌≡◌, ◌≤◌, ◌<◌, ◌+◌, ◌-◌, ◌^◌, List, Err, None, IfOk, length, option_and_then, slice_get};
ghost use Rattle.dk_store.specs.Seen.{IfTold};
ghost use Rattle.dk_engine.specs.Effects.{OnlyReads};
ghost use Rattle.std.specs.List.{list_any};
ghost use Rattle.std.specs.Option.{option_or};
ghost use Rattle.dk_store.specs.Told.{Told};
ghost use Rattle.dk_model.specs.declared.action.Action.{Action};
ghost use Rattle.dk_conflicts.specs.declared.reads.Reads.{Reads};
ghost use Rattle.dk_conflicts.specs.Claims.{AreClaims};
ghost use Rattle.dk_conflicts.specs.Conflicts.{first_in_the_way, kind_of};
ghost use Rattle.dk_engine.specs.Answers.{AnswersMeant};
ghost use Rattle.dk_lawful.specs.Ids.{says};
ghost use Rattle.dk_listing.specs.OfEvents.{IsListingOf};
ghost use Rattle.dk_snapshot.specs.Steps.{AreSized};
ghost use Rattle.dk_txn.specs.Winners.{AreWinners, gone, since_steps};
ghost use Rattle.dk_txn.specs.Transactions.{come_to, reached_view};
ghost use Rattle.dk_segment.specs.Chosen.{ChooseRefuses};
ghost use Rattle.dk_snapshot.specs.Refusals.{ReadRefuses};

use dk_conflicts::Claims;
use dk_engine::{JsonHandler, Refusal};
use dk_lawful::Step;
use dk_listing::Catalogued;
use dk_model::{Action, Kind, TableState};
use dk_segment::find_commits;
use dk_snapshot::{Measured, read_step, step_sizes};
use dk_store::Store;
use std::alloc::Global;

/// From where the winners are read, the oldest first.
#[derive(Drop)]
pub(crate) struct Winners {
    /// The version of the first.
    pub first: u64,
    /// The version that comes after the last.
    pub next: u64,
    pub steps: Vec<Step>,
    /// The listed size of each, in bytes.
    pub sizes: Vec<Option<u64>>,
}

/// What a transaction has of its own: its id, in lower case with hyphens, and what its commit claims.
#[derive(Drop)]
pub(crate) struct Own<'a> {
    pub id: &'a str,
    pub claims: Claims<'a>,
}

/// What was found of the winners.
#[derive(Clone, Copy)]
pub(crate) enum Found {
    /// The transaction's own commit stands already, as this version.
    Own { version: u64 },
    /// All are commits of others; the first that is in the way, if one is, by its version.
    Others { conflict: Option<(u64, Kind)> },
}

/// From where the commits from version `first` up to the one before `next` are read, by the listing that a survey found.
pub(crate) fn find_winners(
    alloc: Global,
    listing: &Catalogued,
    first: u64,
    next: u64,
) -> Result<Winners, Refusal>
    requires above { first ≤ next }
    requires small { next < 2 ^ 63 }
    ensures found { (events : List Told) → IsListingOf events listing.now → AreWinners events first (next - first) result }
    ensures many { IfOk result (λ winners. first + length winners.steps.items ≤ next) }
    ensures ends { IfOk result (λ winners. (winners.first ≡ first) × (winners.next ≡ next)) }
    ensures store { result ≡ Err Refusal.Store → ⊥ }
    ensures refusals { IfErr result ChooseRefuses }
{
    match find_commits(alloc, listing, first, next - first) {
        Err(refusal) => Err(refusal),
        Ok(steps) => {
            let sizes = step_sizes(alloc, listing, &steps)?;
            Ok(Winners {
                first,
                next,
                steps,
                sizes,
            })
        }
    }
}

/// Whether an action is the line in which the transaction of this id speaks of its commit.
fn says(id: &str, action: &Action) -> bool
    ensures { result ≡ says id.now action.now }
{
    match action {
        Action::Info(info) => match &info.txn_id {
            Some(said) => said.as_str() == id,
            None => false,
        },
        _ => false,
    }
}

/// Whether a commit is that of the transaction of this id.
fn has_id(id: &str, commit: &[Action]) -> bool
    ensures { result ≡ list_any (says id.now) commit.now }
{
    'actions: for action in commit {
        if says(id, action) {
            return true;
        }
    }
    false
}

/// The first commit that is in the way: an earlier one, or else this one, if it is.
fn first_conflict(
    earlier: Option<(u64, Kind)>,
    claims: &Claims<'_>,
    version: u64,
    winner: &[Action],
) -> Option<(u64, Kind)>
    ensures { (reads : Reads) (own : List Action) → AreClaims claims.now reads own
        → result ≡ option_or earlier (first_in_the_way version (kind_of reads own winner.now) None) }
{
    match earlier {
        Some(conflict) => Some(conflict),
        None => match claims.kind(winner) {
            Some(kind) => Some((version, kind)),
            None => None,
        },
    }
}

/// The size at a place of a list of sizes, if one is known.
fn size_at(sizes: &[Option<u64>], place: usize) -> Option<u64>
    ensures { result ≡ option_and_then (λ size. size) (slice_get sizes.now place) }
{
    match sizes.get(place) {
        Some(size) => *size,
        None => None,
    }
}

/// A winner that is missing is gone.
pub(crate) fn gone(refusal: Refusal) -> Refusal
    ensures { result ≡ gone refusal }
{
    match refusal {
        Refusal::Missing { path } => Refusal::WinnersGone { path },
        refusal => refusal,
    }
}

/// Reads the winners, the oldest first, each once, up to the transaction's own commit. `state` becomes the state after them, if
/// all are others'.
pub(crate) fn read_winners(
    alloc: Global,
    store: &mut dyn Store,
    json: &mut dyn JsonHandler,
    limit: u64,
    winners: &Winners,
    own: &Own<'_>,
    state: &mut TableState,
) -> Result<Found, Refusal>
    requires { winners.now.first + length winners.now.steps.items ≤ 2 ^ 63 }
    ensures reads { OnlyReads (seen store.old) (seen store.new) result }
    ensures refusals { IfErr result ReadRefuses }
    ensures means { (reads : Reads) (actions : List Action) → AreClaims own.now.claims reads actions → IfTold (seen store.old) (λ events.
        AreSized events winners.now.steps.items winners.now.sizes.items
        → AnswersMeant (reached_view state.new) result (come_to reads actions winners.now.first state.old None (since_steps events limit own.now.id.now winners.now.first winners.now.steps.items))) }
{
    let mut conflict = None;
    for place in 0..winners.steps.len() {
        let step = &winners.steps[place];
        let size = size_at(&winners.sizes, place);
        let measured = Measured { size, limit };
        match read_step(alloc, store, json, step, measured) {
            Err(refusal) => return Err(refusal),
            Ok(commit) => {
                let version = winners.first + place as u64;
                if has_id(own.id, commit.as_slice()) {
                    return Ok(Found::Own { version });
                }
                conflict = first_conflict(conflict, &own.claims, version, commit.as_slice());
                state.absorb(alloc, commit)?;
            }
        }
    }
    Ok(Found::Others { conflict })
}
