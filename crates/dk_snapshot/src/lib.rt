//! What a table is at a version: [`survey`] lists the log, [`open_listed`] and [`open_at`] choose the objects that the version
//! is read from, read them from the newest to the oldest, and answer a [`Snapshot`]. [`step_sizes`] and [`read_step`] serve
//! those who read single commits.
#![tactic(auto)]

mod asked;
mod folding;
pub mod laws;
mod oldest;
mod opening;
mod options;
mod sidecar_folder;
mod sized_segment;
mod sizes;
mod steps;
mod support;
mod surveying;
mod table;
mod usual;

pub use oldest::{FIRST_COMMIT, oldest_path};
pub use opening::{open_at, open_listed};
pub use options::OpenOptions;
pub use sidecar_folder::sidecar_sizes;
pub use sizes::step_sizes;
pub use steps::{Measured, read_step};
pub use support::unreadable;
pub use surveying::survey;
pub use table::Snapshot;
pub use usual::usual_choice;
