//! Actions that are gathered from the newest to the oldest, and folded into a state.
ghost use Rattle.std.specs.Prelude.{◌≡◌, ◌++◌, ◌∷◌, IfOk, OnOk, [], reverse};
ghost use Rattle.std.specs.List.{AllByRecursion, filter};
ghost use Rattle.dk_model.specs.ReadBack.{HasVersionsInRange};
ghost use Rattle.dk_model.specs.State.{empty_state, step, steps};
ghost use Rattle.dk_model.specs.WellKept.{IsWellKept};
ghost use Rattle.dk_snapshot.specs.Effects.{changes_state};

use dk_model::{Action, Commit, TableState};
use std::alloc::{AllocError, Global};

/// Whether an action changes a state.
fn changes_state(action: &Action) -> bool
    ensures { result ≡ changes_state action.now }
{
    match action {
        Action::Info(_) | Action::Cdc | Action::CheckpointMeta(_) | Action::Sidecar(_) => false,
        Action::Protocol(_)
        | Action::Metadata(_)
        | Action::Add(_)
        | Action::Remove(_)
        | Action::Txn(_)
        | Action::Domain(_) => true,
    }
}

/// Lays an action behind newer ones, if it changes a state. The newest comes first.
#[tactic(auto, using(crate::proofs::Effects::keeps_one, crate::proofs::Effects::leaves_one))]
fn keep(newest_first: &mut Vec<Action>, action: Action) -> Result<(), AllocError>
    ensures { OnOk result (reverse newest_first.new.items ≡ filter changes_state (action ∷ []) ++ reverse newest_first.old.items) }
{
    if changes_state(&action) {
        newest_first.push(action)?;
    }
    Ok(())
}

/// Lays the actions of a commit that change a state behind those of newer commits. The newest comes first. The commit is
/// given up.
#[tactic(auto, using(crate::proofs::Effects::gather_more))]
pub(crate) fn gather(newest_first: &mut Vec<Action>, commit: Commit) -> Result<(), AllocError>
    ensures { OnOk result (reverse newest_first.new.items ≡ filter changes_state commit ++ reverse newest_first.old.items) }
{
    let mut actions = commit.into_vec();
    while let Some(action) = actions.pop() {
        keep(newest_first, action)?;
    }
    Ok(())
}

/// Makes the step of an action. The state stays well kept.
#[tactic(auto, using(dk_model::proofs::WellKept::step_keeps))]
fn take(state: &mut TableState, alloc: Global, action: Action) -> Result<(), AllocError>
    requires { HasVersionsInRange action }
    ensures step { OnOk result (state.new ≡ step state.old action) }
    ensures kept { IsWellKept state.old → OnOk result (IsWellKept state.new) }
{
    action.note_kept();
    state.take(alloc, action)
}

/// The state after these actions, of which the newest comes first. They are given up.
pub(crate) fn fold_newest_first(
    alloc: Global,
    mut newest_first: Vec<Action>,
) -> Result<TableState, AllocError>
    requires { AllByRecursion HasVersionsInRange (reverse newest_first.items) }
    ensures state { IfOk result (λ state. state ≡ steps empty_state (reverse newest_first.items)) }
    ensures kept { IfOk result IsWellKept }
{
    let mut state = TableState::new(alloc);
    while let Some(action) = newest_first.pop() {
        take(&mut state, alloc, action)?;
    }
    Ok(state)
}
