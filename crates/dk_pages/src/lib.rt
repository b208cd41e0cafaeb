//! Pages of a Parquet file as parts of its bytes: the page that stands at a place, the levels and values in its body, and the
//! entries of a dictionary. No byte is copied; only a dictionary takes memory, for the places of its entries.
#![tactic(auto)]

mod dictionary;
mod fields;
mod header;
pub mod laws;
mod numbers;
mod page;
mod split;

pub use dictionary::{Dictionary, Physical};
pub use page::{PageView, next_page};
pub use split::Split;
