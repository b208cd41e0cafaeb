//! What rows are, and what the Parquet format keeps of them: schemas, rows, and the columns of
//! triples (Dremel's repetition and definition levels). The layers above use the definition
//! `triples`, which joins the two, and the definitions of when rows fit a schema, of the JSON
//! object that a row stands for, and of the bounds on what is written.
#![tactic(auto)]

mod columns;
mod fault;
pub mod laws;
mod node;
mod page;
mod row;
mod rules;
mod schema;
mod width;

pub use columns::{Columns, Triple, Value};
pub use fault::PqFault;
pub use node::{Node, NodeKind};
pub use page::{PageHeader, PageKind};
pub use row::{Cell, Row};
pub use rules::is_schema;
pub use schema::Schema;
pub use width::level_width;
