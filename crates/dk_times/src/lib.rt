//! The times of versions (Delta Lake's PROTOCOL.md, "In-Commit Timestamps"): which timestamp a commit gets, so that
//! timestamps only rise whatever the clocks of their writers say, and which times versions have whose commits say none.
#![tactic(auto)]

pub mod laws;
mod next;
mod stamps;

pub use next::next_timestamp;
pub use stamps::stamped_times;
