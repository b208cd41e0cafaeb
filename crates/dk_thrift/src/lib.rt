//! Thrift's compact protocol, as Parquet's footers and page headers have it, read and written value by value.
#![tactic(auto)]

mod fault;
mod numbers;
mod passing;
mod reader;
mod values;
mod writer;

pub use dk_grammar::thrift::{Field, ListHead};
pub use fault::ThriftFault;
pub use reader::Reader;
pub use writer::Writer;
