//! From which objects a version of a table is read, by a listing alone.
//!
//! [`choose`] answers the segment of a version, or the first commit that is needed and isn't there, and [`find_commits`] says
//! where some commits are read from; no object is read. [`laws`] says that the events of a store choose alike.
#![tactic(auto)]

mod base;
mod choosing;
mod commit_index;
mod compacted;
pub mod laws;
mod stepping;
mod walk;

pub use choosing::{choose, choose_commits, find_commits};
