//! What is read of checkpoints: [`read_classic`] gives the actions of one in one object, and [`laws`] says what holds of
//! whatever is read.
#![tactic(auto)]

mod fault;
pub mod laws;
mod read;

pub use read::read_classic;
