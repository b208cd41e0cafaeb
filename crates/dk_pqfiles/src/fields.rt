//! Schemas of cases. A field is `[name, whether it may be null, kind]`; a kind is `"flag"`, `"int32"`, `"int64"`, `"chars"`, or an array:
//! `["group", field ..]`, `["list", field]`, `["map", field]`.

use crate::trouble::Trouble;
use dk_pqmodel::{Node, NodeKind, Schema};
use serde_json::Value;
use std::alloc::Global;

/// How deep a case may nest.
pub(crate) const LEVELS: u8 = 100;

/// The nodes of an array of fields.
pub(crate) fn nodes_of(alloc: Global, value: &Value) -> Result<Vec<Node>, Trouble> {
    let items = value.as_array().ok_or(Trouble::Form)?;
    each_of(LEVELS, alloc, items)
}

/// The schema of an array of fields, where they make one.
pub(crate) fn schema_of(alloc: Global, value: &Value) -> Result<Schema, Trouble> {
    let schema = Schema::try_new(nodes_of(alloc, value)?).ok_or(Trouble::Form)?;
    Ok(schema)
}

#[cycle(nodes)]
fn each_of(levels: u8, alloc: Global, items: &[Value]) -> Result<Vec<Node>, Trouble> {
    let mut nodes = Vec::new(alloc);
    for item in items {
        nodes.push(node_of(levels, alloc, item)?)?;
    }
    Ok(nodes)
}

#[cycle(nodes)]
fn node_of(levels: u8, alloc: Global, value: &Value) -> Result<Node, Trouble> {
    let items = value.as_array().ok_or(Trouble::Form)?;
    let [name, nullable, kind] = items.as_slice() else {
        return Err(Trouble::Form);
    };
    Ok(Node {
        name: String::from_str(alloc, name.as_str().ok_or(Trouble::Form)?)?,
        nullable: nullable.as_bool().ok_or(Trouble::Form)?,
        kind: kind_of(levels, alloc, kind)?,
    })
}

#[cycle(nodes)]
fn kind_of(levels: u8, alloc: Global, value: &Value) -> Result<NodeKind, Trouble> {
    if levels == 0 {
        return Err(Trouble::Form);
    }
    match value {
        Value::String(name) => leaf_of(name),
        Value::Array(items) => inner_of(levels - 1, alloc, items),
        _ => Err(Trouble::Form),
    }
}

fn leaf_of(name: &str) -> Result<NodeKind, Trouble> {
    match name {
        "flag" => Ok(NodeKind::Flag),
        "int32" => Ok(NodeKind::Int32),
        "int64" => Ok(NodeKind::Int64),
        "chars" => Ok(NodeKind::Chars),
        _ => Err(Trouble::Form),
    }
}

#[cycle(nodes)]
fn inner_of(levels: u8, alloc: Global, items: &[Value]) -> Result<NodeKind, Trouble> {
    let (first, rest) = items.split_first().ok_or(Trouble::Form)?;
    let mut nodes = each_of(levels, alloc, rest)?;
    match first.as_str().ok_or(Trouble::Form)? {
        "group" => Ok(NodeKind::Group(nodes)),
        "list" => {
            let node = nodes.pop().ok_or(Trouble::Form)?;
            Ok(NodeKind::List(Box::new(alloc, node)?))
        }
        "map" => {
            let node = nodes.pop().ok_or(Trouble::Form)?;
            Ok(NodeKind::Map(Box::new(alloc, node)?))
        }
        _ => Err(Trouble::Form),
    }
}
