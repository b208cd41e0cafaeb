//! Runs of values, the hybrid encoding (RLE and bit packing) of levels and dictionary indices in Parquet, both ways.
#![tactic(auto)]

mod counting;
mod decoding;
mod encoding;
mod fault;
mod header;
pub mod laws;
mod packing;
mod run;
mod unpacking;

pub use counting::{count_below, count_equal};
pub use decoding::decode;
pub use encoding::encode;
pub use fault::HybridFault;
