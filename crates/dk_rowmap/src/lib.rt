//! Rows of checkpoints in Parquet (Delta Lake's PROTOCOL.md, "Checkpoint Schema"): the actions that they mean, the rows of actions,
//! and the schemas by which checkpoints are read and written.
#![tactic(auto)]

mod cells;
mod fault;
mod kinds;
mod part;
mod reading;
mod schemas;
mod writing;

pub use fault::RowFault;
pub use reading::actions_of_rows;
pub use schemas::{read_schema, written_schema};
pub use writing::rows_of_actions;
