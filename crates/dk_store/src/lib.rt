//! The outside of a Delta Lake kernel: a store of objects that is known by the events that it has taken, and sources
//! and sinks that are known by their bytes.
//!
//! The layers above take a boxed [`Store`], a [`Source`] and a [`Sink`]. What a store holds is said by its events
//! alone: `Objects` and `Listing` of `specs/` say what a list of events leaves. [`MemStore`], [`MemSource`] and
//! [`MemSink`] are the three in memory; they tell all and fail where that was planned.
#![tactic(auto)]

mod event;
mod journal;
mod listing;
mod mem_sink;
mod mem_source;
mod memory;
mod objects;
mod plan;
mod standings;
mod store;
mod stream;

pub use event::{Entry, Event, Put, Ratification, Ratify, StoreError};
pub use mem_sink::MemSink;
pub use mem_source::MemSource;
pub use memory::MemStore;
pub use plan::{Call, Fault, How};
pub use store::Store;
pub use stream::{Failed, Sink, Source, give_all};
