//! What a listing of a table's log says, by names alone: commits, checkpoints, compacted files, staged commits and the
//! ratifications that stand.
//!
//! [`group`] sorts the entries of the log's folder, those of the folder of staged commits and the catalogue's
//! ratifications into a [`Catalogued`]; no object is read.
#![tactic(auto)]

mod catalogued;
mod checkpoints;
mod grouping;
mod named;
mod newest;
mod sorting;

pub use catalogued::Catalogued;
pub use named::{Named, Staged};
pub use newest::{checkpoint_version, later};
pub use sorting::group;
