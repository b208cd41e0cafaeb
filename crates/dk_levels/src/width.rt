//! How many columns a schema has: one for each leaf.

ghost use Rattle.std.specs.Prelude.{◌≡◌, ◌+◌, ◌<◌, ◌^◌, MatchOption};
ghost use Rattle.dk_pqmodel.specs.NodeView.{field_of, fields_of, shape_of};
ghost use Rattle.dk_pqmodel.specs.Shape.{width_at, width_of};
ghost use Rattle.dk_levels.specs.Fronts.{element_width};

use crate::levels::Repeated;
use dk_pqmodel::{Node, NodeKind};

/// How many columns the kind has.
#[cycle(width)]
pub fn width(kind: &NodeKind) -> usize
    requires { width_at (shape_of kind.now) < 2 ^ 64 }
    ensures { result ≡ width_at (shape_of kind.now) }
{
    match kind {
        NodeKind::Flag | NodeKind::Int32 | NodeKind::Int64 | NodeKind::Chars => 1,
        NodeKind::Group(nodes) => width_all(nodes),
        NodeKind::List(node) => width(&node.kind),
        NodeKind::Map(node) => 1 + width(&node.kind),
    }
}

#[cycle(width)]
fn width_all(nodes: &[Node]) -> usize
    requires { width_of (fields_of nodes.now) < 2 ^ 64 }
    ensures { result ≡ width_of (fields_of nodes.now) }
{
    let mut sum = 0;
    for node in nodes {
        sum += width(&node.kind);
    }
    sum
}

/// How many columns an element or an entry has.
pub fn element_columns(node: &Node, repeated: Repeated) -> usize
    requires { element_width repeated (field_of node.now) < 2 ^ 64 }
    ensures { result ≡ element_width repeated (field_of node.now) }
{
    match repeated {
        Repeated::Elements => width(&node.kind),
        Repeated::Entries => 1 + width(&node.kind),
    }
}

/// How many of so many columns are left behind those of the nodes; None where there are too few.
#[cycle(left)]
pub fn columns_left(nodes: &[Node], columns: usize) -> Option<usize>
    ensures { MatchOption result (columns < width_of (fields_of nodes.now)) (λ left. left + width_of (fields_of nodes.now) ≡ columns) }
{
    let mut left = columns;
    for node in nodes {
        left = left_behind(&node.kind, left)?;
    }
    Some(left)
}

#[cycle(left)]
fn left_behind(kind: &NodeKind, columns: usize) -> Option<usize>
    ensures { MatchOption result (columns < width_at (shape_of kind.now)) (λ left. left + width_at (shape_of kind.now) ≡ columns) }
{
    match kind {
        NodeKind::Flag | NodeKind::Int32 | NodeKind::Int64 | NodeKind::Chars => {
            columns.checked_sub(1)
        }
        NodeKind::Group(nodes) => columns_left(nodes, columns),
        NodeKind::List(node) => left_behind(&node.kind, columns),
        NodeKind::Map(node) => left_behind(&node.kind, columns.checked_sub(1)?),
    }
}
