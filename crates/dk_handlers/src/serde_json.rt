//! The text of commits by `serde_json`'s meaning of a line.

use dk_actjson::{read_commit, write_actions};
use dk_engine::JsonHandler;
use dk_model::{Action, Commit, LineFault};
use std::alloc::{AllocError, Global};

/// Reads and writes the text of commits as `dk_actjson` does. It keeps nothing.
#[derive(Drop)]
pub struct SerdeJson;

impl SerdeJson {
    /// The handler. Takes no memory.
    pub fn new() -> SerdeJson {
        SerdeJson
    }
}

impl JsonHandler for SerdeJson {
    fn read_commit(&mut self, alloc: Global, bytes: &[u8]) -> Result<Commit, LineFault> {
        read_commit(alloc, bytes)
    }

    fn write_actions(&mut self, alloc: Global, actions: &[Action]) -> Result<Vec<u8>, AllocError> {
        write_actions(alloc, actions)
    }
}
