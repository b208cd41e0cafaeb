//! What a transaction has read.

use dk_model::Names;

/// What of the table a transaction has read before it commits.
#[derive(Drop)]
pub enum Reads {
    /// Nothing: what it commits stands beside whatever others commit.
    Nothing,
    /// The table as a whole.
    Table,
    /// The files with these paths.
    Files(Names),
}
