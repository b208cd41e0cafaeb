//! The real folder: a store over a folder of files, and the standard input and output as a source and a sink.
//!
//! This is the edge that no proof sees through: what the system does with a call is trusted. The store tells no events,
//! so of the clauses of the traits those on content say nothing here; those on the counts and on the versions of
//! ratifications are proved.
#![tactic(auto)]

mod catalogue;
mod dir_store;
mod disk;
mod paths;
mod stamp;
mod std_stream;
mod writes;

pub use dir_store::DirStore;
pub use disk::Disk;
pub use std_stream::{StdSink, StdSource};
