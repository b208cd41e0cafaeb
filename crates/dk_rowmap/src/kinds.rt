//! The nodes of a checkpoint's schema, by what they hold.

ghost use Rattle.std.specs.Prelude.{◌≡◌, [], ◌∷◌, ◌++◌, map, true, IfOk};
ghost use Rattle.dk_pqmodel.specs.NodeView.{field_of, fields_of, shape_of};
ghost use Rattle.dk_pqmodel.specs.Shape.{chars, leaf, group, field};
ghost use Rattle.dk_rowmap.specs.Holds.{shape_held};

use dk_pqmodel::{Node, NodeKind};
use std::alloc::{AllocError, Global};

/// What a field holds.
#[derive(Clone, Copy)]
pub(crate) enum Holds {
    Text,
    /// A number of 32 bits.
    Version,
    /// A number of 64 bits.
    Number,
    Flag,
    /// A list of texts.
    Texts,
    /// Texts under texts.
    Map,
}

/// A field that may be null.
fn optional(alloc: Global, name: &str, kind: NodeKind) -> Result<Node, AllocError>
    ensures { IfOk result (λ n. field_of n ≡ field name.now true (shape_of kind)) }
{
    Ok(Node {
        name: String::from_str(alloc, name)?,
        nullable: true,
        kind,
    })
}

fn unnamed_text(alloc: Global) -> Result<Box<Node>, AllocError>
    ensures { IfOk result (λ b. field_of b.value ≡ field [] true (leaf chars)) }
{
    Ok(Box::new(alloc, optional(alloc, "", NodeKind::Chars)?)?)
}

fn kind_of(alloc: Global, holds: Holds) -> Result<NodeKind, AllocError>
    ensures { IfOk result (λ k. shape_of k ≡ shape_held holds) }
{
    match holds {
        Holds::Text => Ok(NodeKind::Chars),
        Holds::Version => Ok(NodeKind::Int32),
        Holds::Number => Ok(NodeKind::Int64),
        Holds::Flag => Ok(NodeKind::Flag),
        Holds::Texts => Ok(NodeKind::List(unnamed_text(alloc)?)),
        Holds::Map => Ok(NodeKind::Map(unnamed_text(alloc)?)),
    }
}

/// The fields, and one more.
pub(crate) fn and(
    alloc: Global,
    mut nodes: Vec<Node>,
    name: &str,
    holds: Holds,
) -> Result<Vec<Node>, AllocError>
    ensures { IfOk result (λ v. map field_of v.items ≡ map field_of nodes.items ++ field name.now true (shape_held holds) ∷ []) }
{
    let kind = kind_of(alloc, holds)?;
    let node = optional(alloc, name, kind)?;
    nodes.push(node)?;
    Ok(nodes)
}

/// The fields, and a group of other ones.
pub(crate) fn and_group(
    alloc: Global,
    mut nodes: Vec<Node>,
    name: &str,
    inner: Vec<Node>,
) -> Result<Vec<Node>, AllocError>
    ensures { IfOk result (λ v. map field_of v.items ≡ map field_of nodes.items ++ field name.now true (group (fields_of inner.items)) ∷ []) }
{
    let node = optional(alloc, name, NodeKind::Group(inner))?;
    nodes.push(node)?;
    Ok(nodes)
}
