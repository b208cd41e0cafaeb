//! The actions of one commit.

ghost use Rattle.std.specs.Prelude.{◌≡◌};

use crate::action::Action;
use std::marker::Model;

/// The actions of one commit, in the order of their lines (Delta Lake's PROTOCOL.md, "Delta Log Entries").
#[derive(Drop)]
pub struct Commit {
    actions: Vec<Action>,
}

impl Model for Commit {
    ghost use Rattle.std.specs.Prelude.{List};
    ghost use Rattle.dk_model.specs.declared.action.Action.{Action};

    ghost Value = { List Action };

    ghost view = { λ c. c.actions.items };
}

impl Commit {
    /// A commit of these actions. Takes no memory.
    pub fn new(actions: Vec<Action>) -> Commit
        ensures { result ≡ actions.items }
    {
        Commit { actions }
    }

    /// The actions, in the order of their lines.
    pub fn as_slice(&self) -> &[Action]
        ensures { result.now ≡ self.now }
    {
        self.actions.as_slice()
    }

    /// The actions by value, with no copy.
    pub fn into_vec(self) -> Vec<Action>
        ensures { result.items ≡ self }
    {
        self.actions
    }
}
