//! Nodes of a file's own schema, by what a wanted field needs them to be.

ghost use Rattle.std.specs.Prelude.{◌≡◌, option_map};
ghost use Rattle.dk_pqmodel.specs.FileSchema.{group_nodes, is_optional, is_repeated, is_single, kind_at, leaf_kind, named_in, only_node, repeated_node, two_nodes};
ghost use Rattle.dk_pqmeta.specs.View.{node_of, nodes_of};
ghost use Rattle.dk_pqread.specs.LeafView.{leaf_of};

use crate::leaf::Leaf;
use dk_pqmeta::FileNode;

/// Whether the node is required or optional, not repeated.
fn is_single(node: &FileNode) -> bool
    ensures { result ≡ is_single (node_of node.now) }
{
    node.repetition == 0 || node.repetition == 1
}

/// Whether the node may be null.
pub(crate) fn is_optional(node: &FileNode) -> bool
    ensures { result ≡ is_optional (node_of node.now) }
{
    node.repetition == 1
}

fn is_repeated(node: &FileNode) -> bool
    ensures { result ≡ is_repeated (node_of node.now) }
{
    node.repetition == 2
}

/// What the node holds, where it is a leaf that holds what is wanted.
#[tactic(auto, using(crate::proofs::FileNodes::leaf_found, crate::proofs::FileNodes::no_type, crate::proofs::FileNodes::no_leaf, crate::proofs::FileNodes::repeated_leaf))]
pub(crate) fn leaf_kind(wanted: Leaf, node: &FileNode) -> Option<Leaf>
    ensures { option_map leaf_of result ≡ leaf_kind (leaf_of wanted) (node_of node.now) }
{
    let physical = node.physical?;
    if !node.children.is_empty() {
        return None;
    }
    if !is_single(node) {
        return None;
    }
    kind_at(wanted, physical)
}

/// The kind of a physical type that holds what is wanted. Either integer type holds either number.
fn kind_at(wanted: Leaf, physical: i32) -> Option<Leaf>
    ensures { option_map leaf_of result ≡ kind_at (leaf_of wanted) physical }
{
    match (wanted, physical) {
        (Leaf::Flag, 0) => Some(Leaf::Flag),
        (Leaf::Int32 | Leaf::Int64, 1) => Some(Leaf::Int32),
        (Leaf::Int32 | Leaf::Int64, 2) => Some(Leaf::Int64),
        (Leaf::Chars, 6) => Some(Leaf::Chars),
        _ => None,
    }
}

/// The fields of a group.
#[tactic(auto, using(crate::proofs::FileNodes::group_found, crate::proofs::FileNodes::group_repeated, crate::proofs::FileNodes::group_empty))]
pub(crate) fn group_nodes(node: &FileNode) -> Option<&[FileNode]>
    ensures { option_map (λ nodes. nodes_of nodes.now) result ≡ group_nodes (node_of node.now) }
{
    if !is_single(node) {
        return None;
    }
    if node.children.is_empty() {
        return None;
    }
    Some(node.children.as_slice())
}

/// The one repeated node of a list or a map.
pub(crate) fn repeated_node(node: &FileNode) -> Option<&FileNode>
    ensures { option_map (λ inner. node_of inner.now) result ≡ repeated_node (node_of node.now) }
{
    let inner = only_node(node)?;
    if is_single(node) && is_repeated(inner) {
        Some(inner)
    } else {
        None
    }
}

/// The one node of a repeated node.
#[tactic(auto, using(crate::proofs::FileNodes::not_one))]
pub(crate) fn only_node(node: &FileNode) -> Option<&FileNode>
    ensures { option_map (λ inner. node_of inner.now) result ≡ only_node (node_of node.now) }
{
    match node.children.as_slice() {
        [inner] => Some(inner),
        _ => None,
    }
}

/// The two nodes of a repeated node, a key and a value.
#[tactic(auto, using(crate::proofs::FileNodes::not_two))]
pub(crate) fn two_nodes(node: &FileNode) -> Option<(&FileNode, &FileNode)>
    ensures { option_map (λ pair. (node_of pair.0.now, node_of pair.1.now)) result ≡ two_nodes (node_of node.now) }
{
    match node.children.as_slice() {
        [key, value] => Some((key, value)),
        _ => None,
    }
}

/// The node of the name.
pub(crate) fn named<'a>(name: &str, nodes: &'a [FileNode]) -> Option<&'a FileNode>
    ensures { option_map (λ node. node_of node.now) result ≡ named_in name.now (nodes_of nodes.now) }
{
    for node in nodes {
        if node.name.as_str() == name {
            return Some(node);
        }
    }
    None
}
