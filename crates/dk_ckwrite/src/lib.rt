//! What is written of a table as a checkpoint (Delta Lake's PROTOCOL.md, "Checkpoints"): [`classic`] makes the bytes of a classic
//! one, [`classic_actions`] its actions; [`laws`] says how what is written is read back.
#![tactic(auto)]

mod bytes;
mod content;
mod file;
pub mod laws;
mod weight;

pub use bytes::classic;
pub use content::classic_actions;
