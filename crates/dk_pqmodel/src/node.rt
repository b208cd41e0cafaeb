//! The nodes of a schema: named fields with their kind.

ghost use Rattle.std.specs.Prelude.{◌≡◌, IfOk};
ghost use Rattle.dk_pqmodel.specs.NodeView.{field_of, fields_of, shape_of};

use std::alloc::{AllocError, Global};

/// A named field of a row or of a group, or the element of a list, or the value of a map.
///
/// The name of an element or of a value is of no account: lists and maps are written with the
/// inner names of the Parquet format ("Nested Types"), and read with whatever names the file has.
#[cycle(schema)]
#[derive(Drop)]
pub struct Node {
    pub name: String,
    /// Whether the field may be null.
    pub nullable: bool,
    pub kind: NodeKind,
}

/// What a field holds.
#[cycle(schema)]
#[derive(Drop)]
pub enum NodeKind {
    /// A BOOLEAN.
    Flag,
    /// A number that is written as an INT32. It is read from INT32 and INT64 alike.
    Int32,
    /// A number that is written as an INT64. It is read from INT32 and INT64 alike.
    Int64,
    /// A BYTE_ARRAY whose bytes are UTF-8.
    Chars,
    /// Fields beside one another.
    Group(Vec<Node>),
    /// Elements of this field.
    List(Box<Node>),
    /// Entries of a key, which is a text that can't be null, and a value of this field.
    Map(Box<Node>),
}

#[cycle(copies)]
pub fn copy_nodes(alloc: Global, nodes: &[Node]) -> Result<Vec<Node>, AllocError>
    ensures { IfOk result (λ v. fields_of v.items ≡ fields_of nodes.now) }
{
    let mut out = Vec::with_capacity(alloc, nodes.len())?;
    for node in nodes {
        out.push(copy_node(alloc, node)?)?;
    }
    Ok(out)
}

#[cycle(copies)]
fn copy_node(alloc: Global, node: &Node) -> Result<Node, AllocError>
    ensures { IfOk result (λ n. field_of n ≡ field_of node.now) }
{
    Ok(Node {
        name: node.name.clone()?,
        nullable: node.nullable,
        kind: copy_kind(alloc, &node.kind)?,
    })
}

#[cycle(copies)]
fn copy_kind(alloc: Global, kind: &NodeKind) -> Result<NodeKind, AllocError>
    ensures { IfOk result (λ k. shape_of k ≡ shape_of kind.now) }
{
    match kind {
        NodeKind::Flag => Ok(NodeKind::Flag),
        NodeKind::Int32 => Ok(NodeKind::Int32),
        NodeKind::Int64 => Ok(NodeKind::Int64),
        NodeKind::Chars => Ok(NodeKind::Chars),
        NodeKind::Group(nodes) => Ok(NodeKind::Group(copy_nodes(alloc, nodes)?)),
        NodeKind::List(node) => Ok(NodeKind::List(Box::new(alloc, copy_node(alloc, node)?)?)),
        NodeKind::Map(node) => Ok(NodeKind::Map(Box::new(alloc, copy_node(alloc, node)?)?)),
    }
}
