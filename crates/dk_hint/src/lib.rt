//! The hint of the last checkpoint, `_last_checkpoint`: `read_hint` answers what its bytes say, where they spell a hint whose
//! checksum, if it has one, is right; `write_hint` gives the bytes of a hint, with its checksum (Delta Lake's PROTOCOL.md,
//! "Last Checkpoint File" and "JSON checksum").
#![tactic(auto)]

mod checksum;
mod fields;
mod hint;
pub mod laws;
mod pairs;
mod reading;
mod sorting;
mod writing;

pub use hint::Hint;
pub use reading::read_hint;
pub use writing::write_hint;
