//! The rules that make nodes a schema, tested.

ghost use Rattle.std.specs.Prelude.{◌≡◌, ◌≤◌, ◌↔◌, ◌<◌, length, drop, IsTrue};
ghost use Rattle.dk_pqmodel.specs.NodeView.{fields_of, shape_of};
ghost use Rattle.dk_pqmodel.specs.Shape.{group};
ghost use Rattle.dk_pqmodel.specs.Schema.{IsSchema, is_named, are_distinct, are_sound, is_sound_shape, levels_of, levels_at};

use crate::node::{Node, NodeKind};

/// Most levels of a schema.
const MOST_LEVELS: u8 = 32;

/// Whether the nodes make a schema (Apache Parquet, "Nested Types"): at least one, at least one in each group, no two of one
/// name beside one another, at most 32 levels.
pub fn is_schema(nodes: &[Node]) -> bool
    ensures { IsTrue result ↔ IsSchema (fields_of nodes.now) }
{
    if !is_sound_group(nodes) {
        return false;
    }
    are_within(nodes, MOST_LEVELS)
}

fn is_named(name: &str, nodes: &[Node], first: usize) -> bool
    requires { first ≤ length nodes.now }
    ensures { result ≡ is_named name.now (fields_of (drop first nodes.now)) }
{
    for i in first..nodes.len() {
        if name == nodes[i].name.as_str() {
            return true;
        }
    }
    false
}

fn are_distinct(nodes: &[Node]) -> bool
    ensures { result ≡ are_distinct (fields_of nodes.now) }
{
    for i in 0..nodes.len() {
        if is_named(&nodes[i].name, nodes, i + 1) {
            return false;
        }
    }
    true
}

/// Whether there is a node, no two have one name, and each is sound.
#[cycle(sound)]
fn is_sound_group(nodes: &[Node]) -> bool
    ensures { result ≡ is_sound_shape (group (fields_of nodes.now)) }
{
    if nodes.is_empty() {
        return false;
    }
    if !are_distinct(nodes) {
        return false;
    }
    are_sound(nodes)
}

#[cycle(sound)]
fn are_sound(nodes: &[Node]) -> bool
    ensures { result ≡ are_sound (fields_of nodes.now) }
{
    for node in nodes {
        if !is_sound(&node.kind) {
            return false;
        }
    }
    true
}

#[cycle(sound)]
fn is_sound(kind: &NodeKind) -> bool
    ensures { result ≡ is_sound_shape (shape_of kind.now) }
{
    match kind {
        NodeKind::Flag | NodeKind::Int32 | NodeKind::Int64 | NodeKind::Chars => true,
        NodeKind::Group(nodes) => is_sound_group(nodes),
        NodeKind::List(node) | NodeKind::Map(node) => is_sound(&node.kind),
    }
}

/// Whether the nodes have at most so many levels.
#[cycle(within)]
fn are_within(nodes: &[Node], most: u8) -> bool
    ensures { IsTrue result ↔ (levels_of (fields_of nodes.now) ≤ most) }
{
    for node in nodes {
        if !is_within(&node.kind, most) {
            return false;
        }
    }
    true
}

/// Whether a node of the kind has at most so many levels.
#[cycle(within)]
fn is_within(kind: &NodeKind, most: u8) -> bool
    ensures { IsTrue result ↔ (levels_at (shape_of kind.now) < most) }
{
    if most == 0 {
        return false;
    }
    match kind {
        NodeKind::Flag | NodeKind::Int32 | NodeKind::Int64 | NodeKind::Chars => true,
        NodeKind::Group(nodes) => are_within(nodes, most - 1),
        NodeKind::List(node) => is_within(&node.kind, most - 1),
        NodeKind::Map(node) => is_within(&node.kind, most - 1),
    }
}
