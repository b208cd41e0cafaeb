//! One commit, checked: it comes after the newest version of the table, keeps the rules, and is put where nothing stands. A
//! [`Transaction`] may be committed again after a lost answer, and is tested against the commits that came in between.
#![tactic(auto)]

mod attempt;
mod commit;
mod latest;
pub mod laws;
mod options;
mod prepared;
mod start;
mod text;
mod transaction;
mod winners;

pub use commit::Committed;
pub use latest::commit_at_latest;
pub use options::{CommitOptions, Intent};
pub use transaction::Transaction;
