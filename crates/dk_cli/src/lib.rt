//! The commands of the program over any store, handler, source and sink. `run` is the top call: its contract carries the
//! whole promise, for the commands that exist.
#![tactic(auto)]

mod actions;
mod commit;
mod fault;
mod input;
mod program;
mod scan;
mod show;
mod status;
mod text;
mod words;

pub use fault::fault_line;
pub use program::run;
pub use status::Status;
pub use words::{Command, asks_to_write};
