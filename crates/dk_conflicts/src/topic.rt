//! The names that two commits can share.

ghost use Rattle.std.specs.Prelude.{◌≡◌, option_map};
ghost use Rattle.dk_conflicts.specs.Conflicts.{name_on_topic};

use dk_model::{Action, Text};

/// What a name is of.
#[derive(Clone, Copy)]
pub(crate) enum Topic {
    /// An application that an action speaks of.
    Application,
    /// A domain that an action speaks of.
    Domain,
    /// A file that an action removes, by its path.
    Removed,
}

/// The name of this kind that an action has, if it has one.
pub(crate) fn name_of(topic: Topic, action: &Action) -> Option<&Text>
    ensures { option_map (λ name. name.now) result ≡ name_on_topic topic action.now }
{
    match (topic, action) {
        (Topic::Application, Action::Txn(txn)) => Some(&txn.app_id),
        (Topic::Domain, Action::Domain(domain)) => Some(&domain.domain),
        (Topic::Removed, Action::Remove(file)) => Some(&file.path),
        _ => None,
    }
}
