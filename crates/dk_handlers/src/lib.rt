//! The handlers that the program brings.
#![tactic(auto)]

mod plain_parquet;
mod serde_json;

pub use crate::plain_parquet::PlainParquet;
pub use crate::serde_json::SerdeJson;
