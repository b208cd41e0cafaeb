//! The names of a Delta Lake table's log, read and written exactly, and the intervals of its retention properties.
//!
//! A reader tells commits from checkpoints, their parts, compacted files and the hint by name alone. Each kind of name is a
//! spelling of its numbers (`specs/Names.antt`): a name that is written is read as itself, and a name that is read as anything
//! but `Other` is the one that is written for it.
#![tactic(auto)]

mod ids;
mod interval;
mod laws;
mod log_name;
mod numbers;
mod read;
mod sidecar;
mod spelling;
mod staged;
mod strip;
mod words;
mod write;

pub use interval::read_interval;
pub use laws::{names_stand_as_versions, places_have_one_path};
pub use log_name::LogName;
pub use numbers::MAX_VERSION;
pub use read::read_name;
pub use sidecar::{is_sidecar, sidecar_path, write_sidecar};
pub use staged::{read_staged, staged_path, write_staged};
pub use write::{commit_path, write_name, write_path};
