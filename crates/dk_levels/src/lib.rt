//! Rows to columns of triples, and columns back to rows (Dremel's repetition and definition
//! levels). `shred` gives the triples of rows, and `assemble` gives rows exactly where the columns
//! are the triples of some rows, and then these.
#![tactic(auto)]

mod assembly;
mod borrowed;
mod empty;
mod fronts;
pub mod laws;
mod levels;
mod shredding;
mod to_columns;
mod to_rows;
mod width;

pub use assembly::{assemble, assemble_nodes};
pub use borrowed::{BorrowedTriple, BorrowedValue};
pub use shredding::{shred, shred_borrowed};
