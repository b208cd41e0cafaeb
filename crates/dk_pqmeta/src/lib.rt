//! The footer of a Parquet file: the row groups with their chunks by path, and the tree of the schema.
#![tactic(auto)]

mod chunk;
mod element;
mod fault;
mod file;
mod footer;
mod frame;
mod group;
pub mod laws;
mod metadata;
mod numbers;
mod read;
mod structs;
mod tree;
mod values;

pub use footer::{Chunk, FileNode, Footer, RowGroup};
pub use read::read_footer;
