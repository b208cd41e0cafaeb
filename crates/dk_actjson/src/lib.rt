//! The text of a commit: one JSON action a line (Delta Lake's PROTOCOL.md, "Actions"). `read_commit` gives
//! the actions that a text means, or the number of its first line that means nothing; `write_actions`
//! and the calls beside it write the lines of actions.
#![tactic(auto)]

mod action;
mod borrowed;
mod fault;
mod field;
mod form;
mod number;
mod object;
mod owned;
mod read;
mod shown;
mod tree;
mod write;
mod written;

pub use action::{action_of, read_action};
pub use borrowed::pairs_of_slots;
pub use fault::ActionFault;
pub use read::read_commit;
pub use tree::Tree;
pub use write::{
    append_action, append_add, append_application, append_domain, append_metadata, append_own_info,
    append_protocol, append_remove, append_tombstone, write_actions,
};
