//! The sum of commits, as an object of log compaction holds it: `summary` keeps the last action on each key, so that
//! its actions lead each state to where the commits lead it (Delta Lake's PROTOCOL.md, "Log Compaction Files").
#![tactic(auto)]

mod latest;
pub mod laws;
mod newest;
mod settling;
mod summing;

pub use summing::summary;
