//! The key under which a line of a commit has its action.

ghost use Rattle.std.specs.Prelude.{◌≡◌};
ghost use Rattle.dk_model.specs.ActionKeys.{all_keys, name_of};

/// The key of an action in the JSON object of its line (Delta Lake's PROTOCOL.md, "Actions").
#[derive(Clone, Copy)]
pub enum ActionKey {
    Protocol,
    Metadata,
    Add,
    Remove,
    Txn,
    Domain,
    Info,
    Cdc,
    CheckpointMeta,
    Sidecar,
}

const ALL: [ActionKey; 10] = [
    ActionKey::Protocol,
    ActionKey::Metadata,
    ActionKey::Add,
    ActionKey::Remove,
    ActionKey::Txn,
    ActionKey::Domain,
    ActionKey::Info,
    ActionKey::Cdc,
    ActionKey::CheckpointMeta,
    ActionKey::Sidecar,
];

impl ActionKey {
    /// The key as it is written.
    pub fn name(self) -> &'static str
        ensures { result.now ≡ name_of self }
    {
        match self {
            ActionKey::Protocol => "protocol",
            ActionKey::Metadata => "metaData",
            ActionKey::Add => "add",
            ActionKey::Remove => "remove",
            ActionKey::Txn => "txn",
            ActionKey::Domain => "domainMetadata",
            ActionKey::Info => "commitInfo",
            ActionKey::Cdc => "cdc",
            ActionKey::CheckpointMeta => "checkpointMetadata",
            ActionKey::Sidecar => "sidecar",
        }
    }

    /// The keys of all actions.
    #[tactic(auto, unfolding(crate::specs::ActionKeys::all_keys))]
    pub fn all() -> &'static [ActionKey]
        ensures { result.now ≡ all_keys }
    {
        &ALL
    }
}
