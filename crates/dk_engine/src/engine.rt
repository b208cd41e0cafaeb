//! What the commands work over.

use crate::handlers::{JsonHandler, ParquetHandler};
use crate::limits::Limits;
use dk_store::Store;
use std::mem;

/// What the commands work over. Main, a test or a caller makes the boxes.
#[derive(Drop)]
pub struct Engine {
    /// Where the table's objects are.
    pub store: Box<dyn Store>,
    /// How the text of commits is read and written.
    pub json: Box<dyn JsonHandler>,
    /// How the rows of Parquet files are read and written.
    pub parquet: Box<dyn ParquetHandler>,
    /// Others that may take its place.
    pub spares: Vec<Box<dyn ParquetHandler>>,
    /// How much is read.
    pub limits: Limits,
}

impl Engine {
    ghost use Rattle.std.specs.Prelude.{◌≡◌};

    /// Puts another handler of Parquet files in place, and gives back the one that was there; all else stays. Takes no
    /// memory.
    pub fn exchange_parquet(&mut self, new: Box<dyn ParquetHandler>) -> Box<dyn ParquetHandler>
        ensures taken { self.new.parquet ≡ new }
        ensures given { result ≡ self.old.parquet }
        ensures store { self.new.store ≡ self.old.store }
        ensures json { self.new.json ≡ self.old.json }
        ensures spares { self.new.spares ≡ self.old.spares }
        ensures limits { self.new.limits ≡ self.old.limits }
    {
        mem::replace(&mut self.parquet, new)
    }
}
