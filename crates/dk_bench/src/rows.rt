//! Rows of files that look like checkpoints.

ghost use Rattle.std.specs.Prelude.{◌≤◌, IfOk};
ghost use Rattle.dk_pqmodel.specs.Fits.{Fit};
ghost use Rattle.dk_pqmodel.specs.RowView.{rows_of};
ghost use Rattle.dk_pqmodel.specs.SchemaView.{fields_in};
ghost use Rattle.dk_pqmodel.specs.Weight.{most_weight, weight};

use crate::calls::Trouble;
use dk_pqmodel::{Node, NodeKind, Row, Schema};
use dk_pqread::read_rows;
use dk_pqwrite::{can_be_written, write_rows};
use std::alloc::{AllocError, Global};

/// What a field of an action holds.
#[derive(Clone, Copy)]
enum Holds {
    Text,
    Number,
    Flag,
    /// Texts.
    List,
    /// Texts under texts.
    Map,
}

fn optional(alloc: Global, name: &str, kind: NodeKind) -> Result<Node, AllocError> {
    Ok(Node {
        name: String::from_str(alloc, name)?,
        nullable: true,
        kind,
    })
}

fn text(alloc: Global) -> Result<Box<Node>, AllocError> {
    Ok(Box::new(alloc, optional(alloc, "", NodeKind::Chars)?)?)
}

fn kind_of(alloc: Global, holds: Holds) -> Result<NodeKind, AllocError> {
    Ok(match holds {
        Holds::Text => NodeKind::Chars,
        Holds::Number => NodeKind::Int64,
        Holds::Flag => NodeKind::Flag,
        Holds::List => NodeKind::List(text(alloc)?),
        Holds::Map => NodeKind::Map(text(alloc)?),
    })
}

/// A field for each action of its kind.
fn action(alloc: Global, name: &str, fields: &[(&str, Holds)]) -> Result<Node, AllocError> {
    let mut nodes = Vec::new(alloc);
    for (name, holds) in fields {
        nodes.push(optional(alloc, name, kind_of(alloc, *holds)?)?)?;
    }
    optional(alloc, name, NodeKind::Group(nodes))
}

fn metadata(alloc: Global) -> Result<Node, AllocError> {
    let format = action(
        alloc,
        "format",
        &[("provider", Holds::Text), ("options", Holds::Map)],
    )?;
    let mut nodes = Vec::new(alloc);
    for name in ["id", "name", "description"] {
        nodes.push(optional(alloc, name, NodeKind::Chars)?)?;
    }
    nodes.push(format)?;
    for (name, holds) in [
        ("schemaString", Holds::Text),
        ("partitionColumns", Holds::List),
        ("configuration", Holds::Map),
        ("createdTime", Holds::Number),
    ] {
        nodes.push(optional(alloc, name, kind_of(alloc, holds)?)?)?;
    }
    optional(alloc, "metaData", NodeKind::Group(nodes))
}

/// The fields of checkpoints that are measured.
fn actions(alloc: Global) -> Result<Vec<Node>, AllocError> {
    let mut nodes = Vec::new(alloc);
    nodes.push(action(
        alloc,
        "txn",
        &[
            ("appId", Holds::Text),
            ("version", Holds::Number),
            ("lastUpdated", Holds::Number),
        ],
    )?)?;
    nodes.push(action(
        alloc,
        "add",
        &[
            ("path", Holds::Text),
            ("partitionValues", Holds::Map),
            ("size", Holds::Number),
            ("modificationTime", Holds::Number),
            ("dataChange", Holds::Flag),
            ("stats", Holds::Text),
            ("tags", Holds::Map),
            ("baseRowId", Holds::Number),
            ("defaultRowCommitVersion", Holds::Number),
            ("clusteringProvider", Holds::Text),
        ],
    )?)?;
    nodes.push(action(
        alloc,
        "remove",
        &[
            ("path", Holds::Text),
            ("deletionTimestamp", Holds::Number),
            ("dataChange", Holds::Flag),
        ],
    )?)?;
    nodes.push(metadata(alloc)?)?;
    nodes.push(action(
        alloc,
        "protocol",
        &[
            ("minReaderVersion", Holds::Number),
            ("minWriterVersion", Holds::Number),
            ("readerFeatures", Holds::List),
            ("writerFeatures", Holds::List),
        ],
    )?)?;
    nodes.push(action(
        alloc,
        "domainMetadata",
        &[
            ("domain", Holds::Text),
            ("configuration", Holds::Text),
            ("removed", Holds::Flag),
        ],
    )?)?;
    Ok(nodes)
}

fn checkpoint(alloc: Global) -> Result<Schema, Trouble> {
    let nodes = actions(alloc)?;
    Schema::try_new(nodes).ok_or(Trouble::Usage)
}

/// Reads the file's rows so many times, and counts them.
pub(crate) fn read_files(alloc: Global, bytes: &[u8], times: u32) -> Result<u64, Trouble> {
    let schema = checkpoint(alloc)?;
    let mut total = 0u64;
    for _ in 0..times {
        let rows = read_rows(alloc, bytes, &schema)?;
        total = total.wrapping_add(rows.len() as u64);
    }
    Ok(total)
}

/// The file's rows, where they can be written.
fn writable_rows(alloc: Global, bytes: &[u8], schema: &Schema) -> Result<Vec<Row>, Trouble>
    ensures fit { IfOk result (λ v. Fit (fields_in schema.now) (rows_of v.items)) }
    ensures light { IfOk result (λ v. weight (rows_of v.items) ≤ most_weight) }
{
    let rows = read_rows(alloc, bytes, schema)?;
    if can_be_written(schema, &rows) {
        Ok(rows)
    } else {
        Err(Trouble::Unwritable)
    }
}

/// Writes the file's rows so many times, and counts the bytes.
pub(crate) fn write_files(
    alloc: Global,
    bytes: &[u8],
    dictionary: bool,
    times: u32,
) -> Result<u64, Trouble> {
    let schema = checkpoint(alloc)?;
    let rows = writable_rows(alloc, bytes, &schema)?;
    let mut total = 0u64;
    for _ in 0..times {
        let written = write_rows(alloc, &schema, &rows, dictionary)?;
        total = total.wrapping_add(written.len() as u64);
    }
    Ok(total)
}

/// The file that its rows are written as.
pub(crate) fn rewrite(alloc: Global, bytes: &[u8], dictionary: bool) -> Result<Vec<u8>, Trouble> {
    let schema = checkpoint(alloc)?;
    let rows = writable_rows(alloc, bytes, &schema)?;
    let written = write_rows(alloc, &schema, &rows, dictionary)?;
    Ok(written)
}
