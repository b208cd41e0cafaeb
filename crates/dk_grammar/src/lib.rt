//! The grammars of bytes that several crates read and write: varints, zigzag numbers, Thrift's compact protocol, numbers in a
//! base, runs and plain values.
#![tactic(auto)]

pub mod laws;
pub mod plain_laws;
pub mod run_laws;
pub mod thrift;
