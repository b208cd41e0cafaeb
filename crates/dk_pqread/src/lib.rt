//! Rows of wanted columns out of the bytes of a Parquet file.
#![tactic(auto)]

mod bytes;
mod chunk;
mod column;
mod counts;
mod cut;
mod dictionary;
mod examine;
mod fault;
mod group;
pub mod laws;
mod lay;
mod leaf;
mod names;
mod page;
mod plain;
mod plan;
mod read;
mod room;
mod rows;
mod runs;
mod scan;
mod starts;
mod tree;
mod values;
mod widen;
mod zip;

pub use read::read_rows;
