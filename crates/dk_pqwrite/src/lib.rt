//! Rows written as the bytes of a Parquet file.
#![tactic(auto)]

mod chunk;
mod column;
mod dictionary;
mod element;
mod fields;
mod flags;
mod footer;
mod group;
mod header;
pub mod laws;
mod leaves;
mod levels;
mod nodes;
mod page;
mod pages;
mod places;
mod rows;
mod values;
mod writable;

pub use rows::write_rows;
pub use writable::can_be_written;
