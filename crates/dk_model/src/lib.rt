//! The vocabulary of a Delta table: the actions of a commit, the state that they lead to, and what the
//! text of a commit means. The layers above read and write these types; `TableState::apply` makes the
//! steps of a commit.
#![tactic(auto)]

mod action;
mod action_key;
mod commit;
mod copied;
mod copied_state;
mod fault;
mod kept;
mod kind;
pub mod laws;
mod name_sets;
mod pairs;
mod rows;
mod settings;
mod state;
mod text;
mod text_map;

pub use action::{
    Action, AddFile, CheckpointMeta, CommitInfo, Domain, Metadata, Protocol, RemoveFile,
    SidecarRef, Txn,
};
pub use action_key::ActionKey;
pub use commit::Commit;
pub use fault::LineFault;
pub use kind::Kind;
pub use name_sets::name_set;
pub use pairs::Pairs;
pub use state::{Application, TableState};
pub use text::{Names, Text};
pub use text_map::{Entries, IntoEntries, TextMap};
