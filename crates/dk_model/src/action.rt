//! The actions of a commit (Delta Lake's PROTOCOL.md, "Actions").

use crate::pairs::Pairs;
use crate::text::{Names, Text};

/// The versions and features that a reader and a writer of the table must have ("Protocol Evolution").
#[derive(Drop)]
pub struct Protocol {
    /// The least version of a reader, from 0 to 2,147,483,647.
    pub min_reader: u32,
    /// The least version of a writer, from 0 to 2,147,483,647.
    pub min_writer: u32,
    /// The features that a reader must have, where the table lists them.
    pub reader_features: Option<Names>,
    /// The features that a writer must have, where the table lists them.
    pub writer_features: Option<Names>,
}

/// What a table is called, and how its data are laid out ("Change Metadata").
#[derive(Drop)]
pub struct Metadata {
    /// The table's own identifier.
    pub id: Text,
    pub name: Option<Text>,
    pub description: Option<Text>,
    /// The provider of the format of data files, mostly `parquet`.
    pub provider: Text,
    /// The options of that format.
    pub options: Pairs,
    /// The schema, as JSON text.
    pub schema_string: Text,
    pub partition_columns: Names,
    /// When the table was made, in milliseconds since 1970-01-01T00:00:00Z.
    pub created_time: Option<i64>,
    /// The settings of the table.
    pub configuration: Pairs,
}

/// A data file that is part of the table ("Add File and Remove File").
#[derive(Drop)]
pub struct AddFile {
    /// Where the file lies, relative to the table's folder.
    pub path: Text,
    /// The value of each partition column, or none for null.
    pub partition_values: Pairs,
    /// In bytes.
    pub size: i64,
    /// In milliseconds since 1970-01-01T00:00:00Z.
    pub modification_time: i64,
    /// Whether the file has rows that were not in the table before.
    pub data_change: bool,
    /// Statistics of the file's rows, as JSON text.
    pub stats: Option<Text>,
    pub tags: Option<Pairs>,
    pub base_row_id: Option<i64>,
    pub default_row_commit_version: Option<i64>,
    pub clustering_provider: Option<Text>,
    /// Whether a deletion vector stands beside the file.
    pub vector: bool,
}

/// A data file that is no longer part of the table ("Add File and Remove File").
#[derive(Drop)]
pub struct RemoveFile {
    /// Where the file lies, relative to the table's folder.
    pub path: Text,
    /// When it was removed, in milliseconds since 1970-01-01T00:00:00Z.
    pub deletion_timestamp: i64,
    /// Whether rows left the table with it.
    pub data_change: bool,
}

/// The last version of an application's own that a commit has recorded ("Transaction Identifiers").
#[derive(Drop)]
pub struct Txn {
    /// The application, by a name of its own.
    pub app_id: Text,
    /// The application's own count.
    pub version: i64,
    /// When it was recorded, in milliseconds since 1970-01-01T00:00:00Z.
    pub last_updated: Option<i64>,
}

/// Settings that a writer or a feature of the table keeps under a name of its own ("Domain Metadata").
#[derive(Drop)]
pub struct Domain {
    pub domain: Text,
    /// The settings, in a form of the domain's own.
    pub configuration: Text,
    /// Whether the domain goes with this action.
    pub removed: bool,
}

/// The version that a V2 checkpoint is of ("Checkpoint Metadata").
#[derive(Drop)]
pub struct CheckpointMeta {
    /// From 0 to 9,223,372,036,854,775,807.
    pub version: u64,
}

/// An object that has file actions of a V2 checkpoint ("Sidecar File Information").
#[derive(Drop)]
pub struct SidecarRef {
    /// The object's name, or a path that ends in it.
    pub path: Text,
    /// In bytes.
    pub size: i64,
    /// When the object was made, in milliseconds since 1970-01-01T00:00:00Z.
    pub stamp: i64,
}

/// What the writer of a commit says of it, as far as it is read ("Commit Provenance Information").
#[derive(Drop)]
pub struct CommitInfo {
    /// When the commit was made, where commits carry their own time, in milliseconds since
    /// 1970-01-01T00:00:00Z.
    pub in_commit_timestamp: Option<i64>,
    /// The id of the transaction that made the commit.
    pub txn_id: Option<Text>,
}

/// One line of a commit or checkpoint: a change of the table, or what its writer says of it.
#[derive(Drop)]
pub enum Action {
    Protocol(Protocol),
    Metadata(Metadata),
    Add(AddFile),
    Remove(RemoveFile),
    Txn(Txn),
    Domain(Domain),
    Info(CommitInfo),
    /// A file of changed rows, which is read by other means ("Add CDC File").
    Cdc,
    CheckpointMeta(CheckpointMeta),
    Sidecar(SidecarRef),
}
